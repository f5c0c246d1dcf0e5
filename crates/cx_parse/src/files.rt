//! Reading a whole file.

ghost use Rattle.std.specs.Prelude.{◌≡◌, ◌⊎◌, ℕ, Some, map, option_map, IfOk, IfErr, MatchResult};
ghost use Rattle.cx_parse.specs.Readings.{Answers, Gives, state_of, with_first};
ghost use Rattle.cx_parse.specs.declared.stops.Stop.{Stop as StopValue};
ghost use Rattle.cx_parse.specs.declared.stops.Stop.TheVariants as stops;
ghost use Rattle.cx_parse.specs.declared.files.ParseFault.{ParseFault as FaultValue};
ghost use Rattle.cx_parse.specs.declared.files.ParseFault.TheVariants as faults;
ghost use Rattle.cx_parse.specs.Whole.{whole_at, place_left_of, last_place, reading};
ghost use Rattle.cx_parse.specs.Faults.{IsStop, IsFault};
ghost use Rattle.cx_grammar.specs.Calyx as calyx;
ghost use Rattle.cx_grammar.specs.Parsing.{Parse};
ghost use Rattle.cx_ast.specs.PlainTree.{PlainTree, plain_tree, plain_component};

use crate::annotations::import;
use crate::components::component;
use crate::readers::Reader;
use crate::stops::Stop;
use cx_ast::{ComponentItem, ImportItem, Token, Tree};
use cx_grammar::Terminal;
use cx_text::{NESTING, Place};
use std::alloc::Global;

/// The terminals that a component begins with.
const COMPONENT: [Terminal; 3] = [Terminal::At, Terminal::Static, Terminal::Component];

/// Why tokens are no file that is read.
#[derive(Clone, Copy)]
pub enum ParseFault {
    /// The place of the first token with which the tokens so far begin no file. Where the end comes too early, it is that
    /// of the last token, and 1:1 where there is none.
    Unexpected(Place),
    /// The place of the token that begins the first level of nesting that is one too many.
    TooDeep(Place),
    Memory,
}

/// Reads imports.
fn imports(reader: &mut Reader) -> Vec<ImportItem>
    ensures value { (levels : ℕ) →
        Gives levels calyx.imports (state_of reader.old) (state_of reader.new) (Some result.items) }
{
    let mut all = Vec::new(reader.alloc);
    while reader.next_is(Terminal::Import) {
        let import = import(reader);
        reader.keep(&mut all, import);
    }
    all
}

/// Reads the components behind the first.
fn more_components(reader: &mut Reader, levels: u32, first: ComponentItem) -> Vec<ComponentItem>
    ensures value { Gives levels (with_first (plain_component first) calyx.components)
        (state_of reader.old) (state_of reader.new) (Some (map plain_component result.items)) }
{
    let mut all = Vec::new(reader.alloc);
    reader.keep(&mut all, Some(first));
    while reader.next_in(&COMPONENT) {
        let component = component(reader, levels);
        reader.keep(&mut all, component);
    }
    all
}

/// Reads imports and components.
fn file(reader: &mut Reader, levels: u32) -> Option<Tree>
    ensures value { Gives levels calyx.file (state_of reader.old) (state_of reader.new) (option_map plain_tree result) }
{
    let imports = imports(reader);
    let first = component(reader, levels)?;
    let components = more_components(reader, levels, first);
    Some(Tree {
        imports,
        components,
    })
}

/// Reads a file up to the end of the tokens.
fn whole(alloc: Global, tokens: &[Token], levels: u32) -> Result<Tree, Stop>
    ensures value { Answers plain_tree result (whole_at levels tokens.now) }
{
    let mut reader = Reader {
        alloc,
        rest: tokens,
        stop: None,
    };
    let tree = file(&mut reader, levels);
    if let Some(stop) = reader.stop {
        return Err(stop);
    }
    if !reader.rest.is_empty() {
        return Err(Stop::Unexpected(reader.rest.len()));
    }
    match tree {
        Some(tree) => Ok(tree),
        None => unreachable!(),
    }
}

/// The place of the token from which on so many are left. The end has the place of the last token, or 1:1.
pub fn place_left(tokens: &[Token], left: usize) -> Place
    ensures value { result ≡ place_left_of tokens.now left }
{
    let rest = &tokens[tokens.len().saturating_sub(left)..];
    match rest.split_first() {
        Some((first, _)) => first.place,
        None => end_place(tokens),
    }
}

/// The place of the last token, or 1:1.
fn end_place(tokens: &[Token]) -> Place
    ensures value { result ≡ last_place (record { line = 1; column = 1 }) tokens.now }
{
    let mut place = Place { line: 1, column: 1 };
    for token in tokens {
        place = token.place;
    }
    place
}

/// The fault that a stop is.
fn fault_of(tokens: &[Token], stop: Stop) -> ParseFault
    requires stopped { (stop ≡ stops.Memory) ⊎ IsStop tokens.now stop }
    ensures { (result ≡ faults.Memory) ⊎ IsFault tokens.now result }
{
    match stop {
        Stop::Unexpected(left) => ParseFault::Unexpected(place_left(tokens, left)),
        Stop::TooDeep(left) => ParseFault::TooDeep(place_left(tokens, left)),
        Stop::Memory => ParseFault::Memory,
    }
}

/// Reads a file with all the levels that it may have.
#[tactic(auto, unfolding(crate::specs::Whole::reading))]
fn read_file(alloc: Global, tokens: &[Token]) -> Result<Tree, Stop>
    ensures value { Answers plain_tree result (reading tokens.now) }
{
    whole(alloc, tokens, NESTING as u32)
}

/// Reads the tree that the tokens spell, or tells how many tokens are left from the fault on.
pub fn read_tree(alloc: Global, tokens: &[Token]) -> Result<Tree, Stop>
    // What is answered is the tokens' tree, and the tokens' tree is answered unless memory is wanting.
    ensures parsed { IfOk result (λ tree. Parse tokens.now (plain_tree tree)) }
    ensures only { (wanted : PlainTree) → Parse tokens.now wanted
        → MatchResult result (λ tree. plain_tree tree ≡ wanted) (λ stop. stop ≡ stops.Memory) }

    // So it is with faults.
    ensures fault { IfErr result (λ stop. (stop ≡ stops.Memory) ⊎ IsStop tokens.now stop) }
    ensures all_faults { (wanted : StopValue) → IsStop tokens.now wanted
        → MatchResult result (λ _. ⊥) (λ stop. (stop ≡ stops.Memory) ⊎ (stop ≡ wanted)) }
{
    match read_file(alloc, tokens) {
        Ok(tree) => Ok(tree),
        Err(stop) => Err(stop),
    }
}

/// Reads the tree that the tokens spell, or tells the fault with its place.
pub fn parse(alloc: Global, tokens: &[Token]) -> Result<Tree, ParseFault>
    // What is answered is the tokens' tree, and the tokens' tree is answered unless memory is wanting.
    ensures parsed { IfOk result (λ tree. Parse tokens.now (plain_tree tree)) }
    ensures only { (wanted : PlainTree) → Parse tokens.now wanted
        → MatchResult result (λ tree. plain_tree tree ≡ wanted) (λ fault. fault ≡ faults.Memory) }

    // So it is with faults.
    ensures fault { IfErr result (λ fault. (fault ≡ faults.Memory) ⊎ IsFault tokens.now fault) }
    ensures all_faults { (wanted : FaultValue) → IsFault tokens.now wanted
        → MatchResult result (λ _. ⊥) (λ fault. (fault ≡ faults.Memory) ⊎ (fault ≡ wanted)) }
{
    match read_tree(alloc, tokens) {
        Ok(tree) => Ok(tree),
        Err(stop) => Err(fault_of(tokens, stop)),
    }
}

//! The tree of a design's text, or the rule of the text that it breaks.

ghost use Rattle.std.specs.Prelude.{◌≡◌, ◌≤◌, ◌⊎◌, ◌-◌, length, drop, IfOk, IfErr};
ghost use Rattle.cx_ast.specs.PlainTree.{plain_tree};
ghost use Rattle.cx_grammar.specs.Parsing.{Parse};
ghost use Rattle.cx_parse.specs.declared.stops.Stop.TheVariants as unread;
ghost use Rattle.cx_lex.specs.Reading.{memory_fault};
ghost use Rattle.cx_lex.specs.Lex.{FirstFault};
ghost use Rattle.cx_parse.specs.Faults.{IsStop};
ghost use Rattle.cx_commands.specs.declared.stops.Stop.TheVariants as stops;
ghost use Rattle.cx_grammar.specs.Calyx.{word_of as bytes_in};
ghost use Rattle.cx_commands.specs.Unread.{HasTree, name_at, IsNoTree, IsNoFile, IsNoToken};

use crate::stops::Stop;
use cx_ast::{Token, TokenKind, Tree};
use cx_lex::{LexFault, LexKind, lex};
use cx_parse::{Stop as Unread, place_left, read_tree};
use cx_text::{Diagnostic, Name, Place, Rule};
use std::alloc::Global;

/// Reads the tokens of a text and then its tree.
pub fn tree_of(alloc: Global, text: &[u8]) -> Result<Tree, Stop>
    requires { length text.now ≤ 1048576 }
    ensures tree { IfOk result (λ tree. HasTree text.now (plain_tree tree)) }
    ensures fault { IfErr result (IsNoTree text.now) }
{
    match lex(alloc, text) {
        Ok(tokens) => read(alloc, &tokens),
        Err(fault) => Err(of_lex(alloc, fault)),
    }
}

/// Reads the tree of tokens.
fn read(alloc: Global, tokens: &[Token]) -> Result<Tree, Stop>
    ensures tree { IfOk result (λ tree. Parse tokens.now (plain_tree tree)) }
    ensures fault { IfErr result (IsNoFile tokens.now) }
{
    match read_tree(alloc, tokens) {
        Ok(tree) => Ok(tree),
        Err(stop) => Err(of_parse(alloc, tokens, stop)),
    }
}

/// The rule of a text without tokens.
fn of_lex(alloc: Global, fault: LexFault) -> Stop
    ensures { IsNoToken fault result }
{
    match fault.kind {
        LexKind::BadByte => refused(alloc, Rule::BadByte, fault.place, b""),
        LexKind::OpenComment => refused(alloc, Rule::OpenComment, fault.place, b""),
        LexKind::OpenString => refused(alloc, Rule::OpenString, fault.place, b""),
        LexKind::BadLiteral => refused(alloc, Rule::BadLiteral, fault.place, b""),
        LexKind::Memory => Stop::Memory,
    }
}

/// The rule of tokens without a tree.
fn of_parse(alloc: Global, tokens: &[Token], stop: Unread) -> Stop
    requires stopped { (stop ≡ unread.Memory) ⊎ IsStop tokens.now stop }
    ensures { IsNoFile tokens.now result }
{
    match stop {
        Unread::Unexpected(left) => {
            let place = place_left(tokens, left);
            refused(alloc, Rule::Unexpected, place, word_left(tokens, left))
        }
        Unread::TooDeep(left) => {
            let place = place_left(tokens, left);
            refused(alloc, Rule::TooDeep, place, b"")
        }
        Unread::Memory => Stop::Memory,
    }
}

/// The word from which on so many tokens are left, or no bytes where there is none.
fn word_left(tokens: &[Token], left: usize) -> &[u8]
    ensures { result.now ≡ name_at (drop (length tokens.now - left) tokens.now) }
{
    let rest = &tokens[tokens.len().saturating_sub(left)..];
    match rest.split_first() {
        Some((first, _)) => word_in(first),
        None => b"",
    }
}

/// The word that a token is, or no bytes.
fn word_in(token: &Token) -> &[u8]
    ensures { result.now ≡ bytes_in token.now.kind }
{
    match &token.kind {
        TokenKind::Word(name) => name.bytes(),
        _ => b"",
    }
}

/// A break of a rule at a place.
fn refused(alloc: Global, rule: Rule, place: Place, name: &[u8]) -> Stop
    ensures { (result ≡ stops.Memory) ⊎ (result ≡ stops.Rule (record { rule = rule; place = place; name = name.now })) }
{
    match Name::from_bytes(alloc, name) {
        Ok(name) => Stop::Rule(Diagnostic { rule, place, name }),
        Err(memory) => memory.into(),
    }
}

//! The rules that a design can break.

ghost use Rattle.std.specs.Prelude.{◌≡◌};
ghost use Rattle.cx_text.specs.Rules.{text_of};

/// A rule on the text of a design, in the order of the rules' numbers. A message names it by its `text`.
#[derive(Clone, Copy, Debug, PartialEq, Eq)]
pub enum Rule {
    BadByte,
    OpenComment,
    OpenString,
    BadLiteral,
    Unexpected,
    TooDeep,
    Duplicate,
    UnknownName,
    UnknownPrimitive,
    BadParameters,
    Recursive,
    NoMain,
    LeftOut,
    Width,
    GuardWidth,
    Literal,
    NotATarget,
    NotASource,
    NoDone,
    DoneNotState,
    AlwaysEnable,
    CombEnable,
    StaticGuard,
    StaticShape,
    CallShape,
    OutputNotState,
    CombCycle,
    Race,
    Limit,
    TooLarge,
}

impl Rule {
    /// The rule's name as messages write it: lower-case words joined by `-`.
    pub fn text(self) -> &'static str
        ensures value { result.now ≡ text_of self }
    {
        match self {
            Rule::BadByte => "bad-byte",
            Rule::OpenComment => "open-comment",
            Rule::OpenString => "open-string",
            Rule::BadLiteral => "bad-literal",
            Rule::Unexpected => "unexpected",
            Rule::TooDeep => "too-deep",
            Rule::Duplicate => "duplicate",
            Rule::UnknownName => "unknown-name",
            Rule::UnknownPrimitive => "unknown-primitive",
            Rule::BadParameters => "bad-parameters",
            Rule::Recursive => "recursive",
            Rule::NoMain => "no-main",
            Rule::LeftOut => "left-out",
            Rule::Width => "width",
            Rule::GuardWidth => "guard-width",
            Rule::Literal => "literal",
            Rule::NotATarget => "not-a-target",
            Rule::NotASource => "not-a-source",
            Rule::NoDone => "no-done",
            Rule::DoneNotState => "done-not-state",
            Rule::AlwaysEnable => "always-enable",
            Rule::CombEnable => "comb-enable",
            Rule::StaticGuard => "static-guard",
            Rule::StaticShape => "static-shape",
            Rule::CallShape => "call-shape",
            Rule::OutputNotState => "output-not-state",
            Rule::CombCycle => "comb-cycle",
            Rule::Race => "race",
            Rule::Limit => "limit",
            Rule::TooLarge => "too-large",
        }
    }
}

//! Texts that are read as trees, and printed.

ghost use Rattle.std.specs.Prelude.{◌≡◌, IfOk};
ghost use Rattle.cx_ast.specs.PlainTree.{plain_tree};
ghost use Rattle.cx_print.specs.Printable.{IsPrintable};

use cx_ast::Tree;
use cx_lex::lex;
use cx_parse::{ParseFault, parse};
use cx_print::{parsed_is_printable, print};
use std::alloc::Global;
use std::test::Fail;

/// The tree of a short text of one line, or the column of the token that is not expected.
fn read(alloc: Global, text: &[u8]) -> Result<Tree, u32>
    ensures { IfOk result (λ tree. IsPrintable (plain_tree tree)) }
{
    parsed_is_printable();
    if text.len() > 10_000 {
        return Err(9000);
    }
    let Ok(tokens) = lex(alloc, text) else {
        return Err(9001);
    };
    if tokens.len() > 10_000 {
        return Err(9002);
    }
    match parse(alloc, &tokens) {
        Ok(tree) => Ok(tree),
        Err(ParseFault::Unexpected(place)) => Err(place.column),
        Err(_) => Err(9003),
    }
}

fn printed(alloc: Global, text: &[u8]) -> Result<Vec<u8>, Fail> {
    let tree = read(alloc, text).ok().ok_or("tree")?;
    let mut out = Vec::new(alloc);
    print(alloc, &tree, &mut out).ok().ok_or("memory")?;
    Ok(out)
}

/// Texts, and the column of the first token with which they begin no design, which was counted by hand; 0 where there is none.
const TEXTS: [(&str, u32); 14] = [
    ("component main ( ) { cells { } wires { } }", 0),
    (
        "component main ( ) -> ( ) { cells { } wires { } control { } }",
        0,
    ),
    (
        "import \"a\" ; @ top ( 1 ) component main ( a : 1 , @ b c : 1 , ) { cells { } wires { } }",
        0,
    ),
    (
        "static < 1 > component m ( ) { cells { } wires { } control { static invoke a ( b = c , ) ( ) ; } }",
        0,
    ),
    (
        "component main ( ) { cells { r < \"a\" = 1 > = m ( 1 , 1 ) ; } wires { } }",
        0,
    ),
    (
        "component main ( ) { cells { r < \"a\" = 1 >= m ( ) ; } wires { } }",
        42,
    ),
    (
        "component main ( ) { cells { } wires { g [ static ] = ! a & b | c == 1'd1 ? d ; } }",
        0,
    ),
    (
        "component main ( ) { cells { } wires { g [ done ] = ! a == b ? d ; } }",
        57,
    ),
    (
        "component main ( ) { cells { } wires { seq . in = a ; } }",
        40,
    ),
    ("component seq ( ) { cells { } wires { } }", 11),
    (
        "component main ( ) { cells { c = if ( ) ; } wires { } }",
        34,
    ),
    (
        "component main ( ) { cells { } wires { } control { if a { } else { } } } }",
        74,
    ),
    ("component main ( ) { cells { } wires {", 38),
    ("component main ( ) { cells { } }", 32),
];

#[test]
fn parses(rt: HostRuntime) {
    for (text, column) in TEXTS {
        let told = match read(rt.alloc(), text.as_bytes()) {
            Ok(_) => 0,
            Err(column) => column,
        };
        assert_eq!(rt; told, column, "{text}");
    }
}

const SMALLEST: &[u8] = b"component main() -> () { cells {} wires {} control {} }";

// Written by hand from the rules of the layout.
const SMALLEST_PRINTED: &[u8] = b"component main() {
  cells {
  }
  wires {
  }
  control {
  }
}
";

// Spaces where they do not count, and parentheses that are needed and that are not.
const CROWDED: &[u8] =
    b"import \"primitives/core.futil\";component main(@go go:1)->(){cells{r=std_mem_d1(32,4,2);}
wires{static<3>group g{r.in=!((r.a<r.b|r.c)&(r.d))?32'hff;}}control{seq{@bound(4)g<\"pos\"=7>;}}}";

// Written by hand: two spaces for each level, one statement a line, a space behind the `>` of marks.
const CROWDED_PRINTED: &[u8] = b"import \"primitives/core.futil\";
component main(@go go: 1) {
  cells {
    r = std_mem_d1(32, 4, 2);
  }
  wires {
    static<3> group g {
      r.in = !((r.a < r.b | r.c) & r.d) ? 32'd255;
    }
  }
  control {
    seq {
      @bound(4) g<\"pos\" = 7> ;
    }
  }
}
";

// Each kind of statement, of guard and of operand; a comma behind the last, and parentheses that are not needed.
const LONGER: &[u8] = b"import \"primitives/core.futil\";
component main<\"top\"=1>(@go go: 1, x: 8,) -> (y: 8) {
  cells { @external(1) m<\"a\"=2, \"b\"=3> = std_mem_d1(8, 4, 2); r = std_reg(8); c = child(); }
  wires {
    y = r.out;
    comb group t { r.in = (x == 8'd1) ? 8'hff; }
    @at(2) static<3> group g<\"g\"=1> { r.in = !(x < y | (r.out & %2)) & (%[0:1] | !x) ? m.read_data; g[done] = r.done ? 1'b1; }
    group p { @group c.go = (x >= y) & (x != y & x > y) | x <= y ? 1'd1; p[done] = c.done; }
  }
  control {
    seq {
      @fast p<\"k\"=1>; p;
      par { seq<\"q\"=2> { } }
      if x with t { p; } else { while r.out { p; } }
      while x with t { repeat 3 { p; } }
      static<6> seq { g; g; }
      static par<\"s\"=1> { static repeat 2 { g; } static if x { g; } else { g; } static<1> if x { g; } }
      invoke c(in = r.out, k = 8'd1)(out = r.in);
      static<2> invoke c()();
    }
  }
}
static<2> component child() { cells {} wires {} }
";

/// The layout; and what is printed is read again and printed as the same text, which shows that the two trees are equal apart from
/// places.
#[test]
fn prints(rt: HostRuntime) -> Result<(), Fail> {
    for (text, want) in [(SMALLEST, SMALLEST_PRINTED), (CROWDED, CROWDED_PRINTED)] {
        let text = printed(rt.alloc(), text)?;
        assert_eq!(rt; text.as_slice(), want);
    }
    let once = printed(rt.alloc(), LONGER)?;
    let again = printed(rt.alloc(), &once)?;
    assert_eq!(rt; once.as_slice(), again.as_slice());
    Ok(())
}

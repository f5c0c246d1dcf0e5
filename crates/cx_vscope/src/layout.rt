//! What the layout of a text asks of names and of lists.

ghost use Rattle.std.specs.Prelude.{◌≡◌, map, option_map};
ghost use Rattle.std.specs.List.{list_all};
ghost use Rattle.cx_vtree.specs.Layout as layout;
ghost use Rattle.cx_vtree.specs.PlainParts.{plain_expr, plain_port, plain_decl, plain_assign, plain_conn, plain_instance, plain_item, plain_edge, plain_module, plain_modules, plain_external, plain_externals};

use cx_text::{NAME_BYTES, Name};
use cx_vtree::{
    Conn, Decl, Edge, EdgeItem, Expr, External, Instance, Module, ModulePort, NetAssign,
};

fn is_letter(c: u8) -> bool
    ensures { result ≡ layout.is_letter c }
{
    (97 <= c && c <= 122) || (65 <= c && c <= 90) || c == 95
}

/// Whether a byte is a letter, `_` or a digit.
pub fn is_name_byte(c: u8) -> bool
    ensures { result ≡ layout.is_name_byte c }
{
    is_letter(c) || (48 <= c && c <= 57)
}

fn begins_word(bytes: &[u8]) -> bool
    ensures { result ≡ layout.begins_word bytes.now }
{
    match bytes.split_first() {
        None => false,
        Some((c, _)) => is_letter(*c),
    }
}

fn all_name_bytes(bytes: &[u8]) -> bool
    ensures { result ≡ list_all layout.is_name_byte bytes.now }
{
    for c in bytes {
        if !is_name_byte(*c) {
            return false;
        }
    }
    true
}

/// Whether bytes are a word: at most 255 letters, digits and `_`, no digit first.
pub fn is_word(bytes: &[u8]) -> bool
    ensures { result ≡ layout.is_word bytes.now }
{
    begins_word(bytes) && all_name_bytes(bytes) && bytes.len() <= NAME_BYTES
}

/// Whether a word is one of the grammar's own.
pub fn is_keyword(bytes: &[u8]) -> bool
    ensures { result ≡ layout.is_keyword bytes.now }
{
    let Some((first, _)) = bytes.split_first() else {
        return false;
    };
    match *first {
        b'a' => bytes == b"assign".as_slice() || bytes == b"always".as_slice(),
        b'b' => bytes == b"begin".as_slice(),
        b'e' => {
            bytes == b"end".as_slice()
                || bytes == b"else".as_slice()
                || bytes == b"endmodule".as_slice()
        }
        b'i' => bytes == b"input".as_slice() || bytes == b"if".as_slice(),
        b'm' => bytes == b"module".as_slice(),
        b'o' => bytes == b"output".as_slice(),
        b'p' => bytes == b"posedge".as_slice(),
        b'r' => bytes == b"reg".as_slice(),
        b'w' => bytes == b"wire".as_slice(),
        _ => false,
    }
}

fn is_name(name: &Name) -> bool
    ensures { result ≡ layout.is_name name.now }
{
    is_word(name.bytes()) && !is_keyword(name.bytes())
}

fn expr_fits(e: &Expr) -> bool
    ensures { result ≡ layout.expr_fits (plain_expr e.now) }
{
    match e {
        Expr::Net(name) => is_name(name),
        Expr::Literal(_) => true,
        Expr::Slice(name, _, _) => is_name(name),
        Expr::Item(name, index) => is_name(name) && expr_fits(index),
        Expr::Binary(_, left, right) => expr_fits(left) && expr_fits(right),
        Expr::Not(inner) => expr_fits(inner),
        Expr::Choose(test, one, other) => expr_fits(test) && expr_fits(one) && expr_fits(other),
        Expr::Cat(high, low) => expr_fits(high) && expr_fits(low),
    }
}

fn ports_fit(list: &[ModulePort]) -> bool
    ensures { result ≡ list_all layout.port_fits (map plain_port list.now) }
{
    for p in list {
        if !is_name(&p.name) || p.width == 0 {
            return false;
        }
    }
    true
}

fn decl_fits(d: &Decl) -> bool
    ensures { result ≡ layout.decl_fits (plain_decl d.now) }
{
    match d {
        Decl::Wire { name, width } => is_name(name) && 0 < *width,
        Decl::Register { name, width } => is_name(name) && 0 < *width,
        Decl::Array {
            name,
            width,
            length,
        } => is_name(name) && 0 < *width && 0 < *length,
    }
}

fn decls_fit(list: &[Decl]) -> bool
    ensures { result ≡ list_all layout.decl_fits (map plain_decl list.now) }
{
    for d in list {
        if !decl_fits(d) {
            return false;
        }
    }
    true
}

fn assign_fits(a: &NetAssign) -> bool
    ensures { result ≡ layout.assign_fits (plain_assign a.now) }
{
    is_name(&a.name) && expr_fits(&a.value)
}

fn assigns_fit(list: &[NetAssign]) -> bool
    ensures { result ≡ list_all layout.assign_fits (map plain_assign list.now) }
{
    for a in list {
        if !assign_fits(a) {
            return false;
        }
    }
    true
}

fn conns_fit(list: &[Conn]) -> bool
    ensures { result ≡ list_all layout.conn_fits (map plain_conn list.now) }
{
    for c in list {
        if !(is_name(&c.port) && is_name(&c.net)) {
            return false;
        }
    }
    true
}

fn instance_fits(i: &Instance) -> bool
    ensures { result ≡ layout.instance_fits (plain_instance i.now) }
{
    is_name(&i.module) && is_name(&i.name) && 0 < i.conns.len() && conns_fit(&i.conns)
}

fn instances_fit(list: &[Instance]) -> bool
    ensures { result ≡ list_all layout.instance_fits (map plain_instance list.now) }
{
    for i in list {
        if !instance_fits(i) {
            return false;
        }
    }
    true
}

fn item_fits(i: &EdgeItem) -> bool
    ensures { result ≡ layout.item_fits (plain_item i.now) }
{
    match i {
        EdgeItem::Set(a) => assign_fits(a),
        EdgeItem::Store {
            guard,
            array,
            index,
            value,
        } => is_name(array) && expr_fits(guard) && expr_fits(index) && expr_fits(value),
    }
}

fn items_fit(list: &[EdgeItem]) -> bool
    ensures { result ≡ list_all layout.item_fits (map plain_item list.now) }
{
    for i in list {
        if !item_fits(i) {
            return false;
        }
    }
    true
}

fn edge_fits(e: &Option<Edge>) -> bool
    ensures { result ≡ layout.edge_fits (option_map plain_edge e.now) }
{
    match e {
        None => true,
        Some(e) => assigns_fit(&e.reset) && items_fit(&e.step),
    }
}

fn module_fits(m: &Module) -> bool
    ensures { result ≡ layout.module_fits (plain_module m.now) }
{
    is_name(&m.name)
        && 0 < m.ports.len()
        && ports_fit(&m.ports)
        && decls_fit(&m.decls)
        && assigns_fit(&m.assigns)
        && instances_fit(&m.instances)
        && edge_fits(&m.edge)
}

fn modules_fit(list: &[Module]) -> bool
    ensures { result ≡ list_all layout.module_fits (plain_modules list.now) }
{
    for m in list {
        if !module_fits(m) {
            return false;
        }
    }
    true
}

fn external_fits(e: &External) -> bool
    ensures { result ≡ layout.external_fits (plain_external e.now) }
{
    is_word(e.name.bytes()) && is_name(&e.instance) && 0 < e.sizes.len() && e.sizes.len() <= 4
}

fn externals_fit(list: &[External]) -> bool
    ensures { result ≡ list_all layout.external_fits (plain_externals list.now) }
{
    for e in list {
        if !external_fits(e) {
            return false;
        }
    }
    true
}

/// Whether some text spells the source of these parts.
pub fn is_laid_out(externals: &[External], modules: &[Module]) -> bool
    ensures { result ≡ layout.is_laid_out
        (record { externals = plain_externals externals.now; modules = plain_modules modules.now }) }
{
    externals_fit(externals) && 0 < modules.len() && modules_fit(modules)
}

// The grammar of systems by examples: faults at both edges of each limit, and a tree of each form.

use dz_int::Frac;
use dz_rank::{Kind, Operator, Symbol};
use dz_syntax::{
    Form, Item, Names, Op, SyntaxFault, SyntaxKind, SystemTree, read_item, read_system,
};
use std::alloc::{AllocError, Global};
use std::test::*;

/// Independents x and y, dependents v and u, in this order.
const TWO: &[u8] = b"derivations x, y; ranking grlexA [v, u]; equations; inequations; end";

const X: Op = Op::Symbol(Symbol::Independent(0));

const V: Op = Op::Symbol(Symbol::Derivative {
    dependent: 0,
    operator: Operator { counts: [0; 4] },
});

const U: Op = Op::Symbol(Symbol::Derivative {
    dependent: 1,
    operator: Operator { counts: [0; 4] },
});

const U_XYY: Op = Op::Symbol(Symbol::Derivative {
    dependent: 1,
    operator: Operator {
        counts: [1, 2, 0, 0],
    },
});

const U_60: Op = Op::Symbol(Symbol::Derivative {
    dependent: 1,
    operator: Operator {
        counts: [60, 0, 0, 0],
    },
});

/// Expressions over these names, and their steps.
const ITEMS: [(&[u8], &[Op]); 4] = [
    (b"- u*u + v", &[U, U, Op::Mul, Op::Negate, V, Op::Add]),
    (b"u # -\r-\n - v", &[U, V, Op::Sub]),
    (
        b"-(x - u[y,x,y])^0065535",
        &[X, U_XYY, Op::Sub, Op::Power(65_535), Op::Negate],
    ),
    (
        b"170141183460469231731687303715884105727",
        &[Op::Number(170_141_183_460_469_231_731_687_303_715_884_105_727)],
    ),
];

/// Texts that are no expression over these names, and where and why.
const ITEM_FAULTS: [(&[u8], usize, SyntaxKind); 18] = [
    (b"u + $", 4, SyntaxKind::BadByte),
    (b"u !v", 2, SyntaxKind::BadByte),
    (b"u\x0b", 1, SyntaxKind::BadByte),
    (b"", 0, SyntaxKind::Unexpected),
    (b"u + ", 4, SyntaxKind::Unexpected),
    (b"u = v", 2, SyntaxKind::Unexpected),
    (b"2 u", 2, SyntaxKind::Unexpected),
    (b"end", 0, SyntaxKind::Unexpected),
    (b"lexA", 0, SyntaxKind::Unexpected),
    (b"u[]", 2, SyntaxKind::Unexpected),
    (b"u[x", 3, SyntaxKind::Unexpected),
    (b"u^-1", 2, SyntaxKind::Unexpected),
    (b"+ - u", 2, SyntaxKind::Unexpected),
    (b"lexB", 0, SyntaxKind::Unknown),
    (b"x[x]", 0, SyntaxKind::Unknown),
    (b"u[x,v]", 4, SyntaxKind::Unknown),
    (b"u^65536", 2, SyntaxKind::Exponent),
    (
        b"u-170141183460469231731687303715884105728",
        2,
        SyntaxKind::Literal,
    ),
];

/// Texts that are no system in a form, and where and why.
const SYSTEM_FAULTS: [(Form, &[u8], usize, SyntaxKind); 13] = [
    (Form::Plain, b"derivations end;", 12, SyntaxKind::Unexpected),
    (
        Form::Plain,
        b"derivations a,b,c,d,a;",
        20,
        SyntaxKind::Twice,
    ),
    (
        Form::Plain,
        b"derivations a,b,c,d,e;",
        20,
        SyntaxKind::Names,
    ),
    (
        Form::Plain,
        b"derivations x;ranking lexA[x];",
        27,
        SyntaxKind::Twice,
    ),
    (
        Form::Plain,
        b"derivations;ranking lexA[a,b,c,d]lexA[e,f,g,h,i,j,k,l,m,n,o,p,q];",
        62,
        SyntaxKind::Names,
    ),
    (
        Form::Plain,
        b"derivations;ranking u;",
        20,
        SyntaxKind::Unexpected,
    ),
    (
        Form::Plain,
        b"derivations;ranking lexA[u];equations u!=1;",
        39,
        SyntaxKind::Unexpected,
    ),
    (
        Form::Plain,
        b"derivations;ranking lexA[u];equations;inequations u=1;",
        51,
        SyntaxKind::Unexpected,
    ),
    (
        Form::Plain,
        b"derivations;ranking;equations;inequations;end;",
        45,
        SyntaxKind::Unexpected,
    ),
    (
        Form::Document,
        b"derivations;ranking;equations;inequations;end \n",
        45,
        SyntaxKind::Unexpected,
    ),
    (
        Form::Document,
        b"derivations;ranking;equations;inequations;end\x01",
        45,
        SyntaxKind::Unexpected,
    ),
    (
        Form::Document,
        b"derivations;ranking;equations;inequations;end",
        45,
        SyntaxKind::Unexpected,
    ),
    (
        Form::Document,
        b"derivations;ranking;equations;inequations;endx",
        42,
        SyntaxKind::Unexpected,
    ),
];

/// A system with an independent x and a dependent u, up to its values.
const VALUED: &[u8] = b"derivations x;ranking lexA[u];equations;inequations;values ";

/// Values of this system, and where and why they are none.
const VALUE_FAULTS: [(&[u8], usize, SyntaxKind); 6] = [
    (b"u=1/0;", 63, SyntaxKind::Denominator),
    (b"u=1,x=2,u$", 67, SyntaxKind::Twice),
    (b"u=1,u[x]=2,u[x]=3;", 70, SyntaxKind::Twice),
    (b"u=1,u[$", 65, SyntaxKind::BadByte),
    (b"u=+1;", 61, SyntaxKind::Unexpected),
    (
        b"u=1/170141183460469231731687303715884105728;",
        63,
        SyntaxKind::Literal,
    ),
];

/// A system up to its last word.
const SYSTEM: &[u8] = b"derivations t, s; # time and space
        ranking degrevB [z, _a1] lexA [y];
        equations z[t] = y, _a1; inequations y[s,t] != 0; ";

const Y: Symbol = Symbol::Derivative {
    dependent: 2,
    operator: Operator { counts: [0; 4] },
};

const Y_S: Symbol = Symbol::Derivative {
    dependent: 2,
    operator: Operator {
        counts: [0, 1, 0, 0],
    },
};

const Z_T: Symbol = Symbol::Derivative {
    dependent: 0,
    operator: Operator {
        counts: [1, 0, 0, 0],
    },
};

fn is_fault<T: Drop>(answer: Result<T, SyntaxFault>, place: usize, kind: SyntaxKind) -> bool {
    match answer {
        Ok(_) => false,
        Err(fault) => fault.place == place && fault.kind == kind,
    }
}

/// Whether a text over the names of a system is read as an expression with these steps.
fn is_item(alloc: Global, names: &Names, text: &[u8], steps: &[Op]) -> bool {
    match read_item(alloc, names, text) {
        Ok(item) => item.steps() == steps,
        Err(_) => false,
    }
}

/// Whether a text over the names of a system has this fault.
fn is_item_fault(
    alloc: Global,
    names: &Names,
    text: &[u8],
    place: usize,
    kind: SyntaxKind,
) -> bool {
    is_fault(read_item(alloc, names, text), place, kind)
}

/// Whether a text in a form has this fault.
fn is_system_fault(alloc: Global, text: &[u8], form: Form, place: usize, kind: SyntaxKind) -> bool {
    is_fault(read_system(alloc, text, form), place, kind)
}

/// Whether the system with these values has this fault.
fn is_value_fault(
    alloc: Global,
    values: &[u8],
    place: usize,
    kind: SyntaxKind,
) -> Result<bool, AllocError> {
    let text = repeated(alloc, VALUED, 1, values, b"")?;
    Ok(is_system_fault(alloc, &text, Form::Values, place, kind))
}

/// The tree of a text that is a system.
fn tree_of_text(alloc: Global, text: &[u8], form: Form) -> Option<SystemTree> {
    read_system(alloc, text, form).ok()
}

/// A text that begins with some bytes, goes on with as many copies of others, and ends.
fn repeated(
    alloc: Global,
    before: &[u8],
    copies: usize,
    middle: &[u8],
    after: &[u8],
) -> Result<Vec<u8>, AllocError> {
    let mut text = Vec::from_slice(alloc, before)?;
    for _ in 0..copies {
        text.extend_from_slice(middle)?;
    }
    text.extend_from_slice(after)?;
    Ok(text)
}

/// The place and the kind of the fault of a text of one byte.
fn fault_of_byte(byte: u8) -> (usize, SyntaxKind) {
    match byte {
        b' ' | b'\t' | b'\r' | b'\n' | b'#' => (1, SyntaxKind::Unexpected),
        b'A'..=b'Z' | b'a'..=b'z' | b'0'..=b'9' | b'_' => (0, SyntaxKind::Unexpected),
        b';' | b',' | b'[' | b']' | b'(' | b')' => (0, SyntaxKind::Unexpected),
        b'+' | b'-' | b'*' | b'^' | b'=' | b'/' => (0, SyntaxKind::Unexpected),
        _ => (0, SyntaxKind::BadByte),
    }
}

/// Whether the names are those that the system declares, in its order.
fn are_named(names: &Names) -> bool {
    let signature = names.signature();
    signature.independents == 2
        && signature.dependents == 3
        && names.independent(1) == b"s".as_slice()
        && names.dependent(1) == b"_a1".as_slice()
}

/// Whether the names stand for what the system declares them as.
fn are_found(names: &Names) -> bool {
    names.find(b"y") == Some(Y)
        && names.find(b"t") == Some(Symbol::Independent(0))
        && names.find(b"lexA").is_none()
}

/// Whether the blocks are those of the system.
fn are_blocks(tree: &SystemTree) -> bool {
    match tree.blocks.as_slice() {
        [first, second] => {
            first.kind == Kind::DegrevB
                && first.dependents.as_slice() == [0, 1].as_slice()
                && second.dependents.as_slice() == [2].as_slice()
        }
        _ => false,
    }
}

/// Whether an item has these steps.
fn has_steps(item: Option<&Item>, steps: &[Op]) -> bool {
    match item {
        Some(item) => item.steps() == steps,
        None => false,
    }
}

/// Whether the names and the blocks are those of the system.
fn is_declared(tree: &SystemTree) -> bool {
    tree.signature.independents == 2
        && tree.signature.dependents == 3
        && are_named(&tree.names)
        && are_found(&tree.names)
        && are_blocks(tree)
}

/// Whether there are as many equations and inequations as in the system, and the first is right.
fn are_items(tree: &SystemTree) -> bool {
    let steps = [Op::Symbol(Z_T), Op::Symbol(Y), Op::Sub];
    tree.equations.len() == 2
        && tree.inequations.len() == 1
        && has_steps(tree.equations.first(), &steps)
}

/// Whether a value is this symbol's, and this fraction.
fn is_value(
    value: Option<&(Symbol, Frac)>,
    of: Symbol,
    numerator: i128,
    denominator: i128,
) -> bool {
    match value {
        Some((symbol, fraction)) => {
            *symbol == of
                && fraction.numerator() == numerator
                && fraction.denominator() == denominator
        }
        None => false,
    }
}

#[test]
fn expressions(rt: HostRuntime) -> Result<(), Fail> {
    let alloc = rt.alloc();
    let tree = tree_of_text(alloc, TWO, Form::Plain).ok_or("names")?;
    for (text, steps) in ITEMS {
        assert!(rt; is_item(alloc, &tree.names, text, steps));
    }
    Ok(())
}

#[test]
fn faults_of_expressions(rt: HostRuntime) -> Result<(), Fail> {
    let alloc = rt.alloc();
    let tree = tree_of_text(alloc, TWO, Form::Plain).ok_or("names")?;
    for (text, place, kind) in ITEM_FAULTS {
        assert!(rt; is_item_fault(alloc, &tree.names, text, place, kind));
    }
    Ok(())
}

#[test]
fn sixty_names_in_brackets(rt: HostRuntime) -> Result<(), Fail> {
    let alloc = rt.alloc();
    let tree = tree_of_text(alloc, TWO, Form::Plain).ok_or("names")?;
    let text = repeated(alloc, b"u[x", 59, b",x", b"]")?;
    assert!(rt; is_item(alloc, &tree.names, &text, &[U_60]));
    let text = repeated(alloc, b"u[x", 60, b",x", b"]")?;
    assert!(rt; is_item_fault(alloc, &tree.names, &text, 122, SyntaxKind::Order));
    Ok(())
}

#[test]
fn sixty_four_parentheses(rt: HostRuntime) -> Result<(), Fail> {
    let alloc = rt.alloc();
    let tree = tree_of_text(alloc, TWO, Form::Plain).ok_or("names")?;
    let open = repeated(alloc, b"", 64, b"(", b"u")?;
    let text = repeated(alloc, &open, 64, b")", b"")?;
    assert!(rt; is_item(alloc, &tree.names, &text, &[U]));
    let text = repeated(alloc, b"(", 64, b"(", b"u")?;
    assert!(rt; is_item_fault(alloc, &tree.names, &text, 64, SyntaxKind::Deep));
    Ok(())
}

#[test]
fn a_sum_of_a_million_bytes(rt: HostRuntime) -> Result<(), Fail> {
    let alloc = rt.alloc();
    let tree = tree_of_text(alloc, TWO, Form::Plain).ok_or("names")?;
    let text = repeated(alloc, b"1", 500_000, b"+1", b"")?;
    let sum = read_item(alloc, &tree.names, &text).ok().ok_or("a sum")?;
    assert!(rt; sum.steps().len() == 1_000_001);
    Ok(())
}

#[test]
fn faults_of_systems(rt: HostRuntime) -> Result<(), Fail> {
    let alloc = rt.alloc();
    for (form, text, place, kind) in SYSTEM_FAULTS {
        assert!(rt; is_system_fault(alloc, text, form, place, kind));
    }
    Ok(())
}

#[test]
fn faults_of_values(rt: HostRuntime) -> Result<(), Fail> {
    let alloc = rt.alloc();
    for (text, place, kind) in VALUE_FAULTS {
        assert!(rt; is_value_fault(alloc, text, place, kind)?);
    }
    Ok(())
}

#[test]
fn faults_of_first_bytes(rt: HostRuntime) -> Result<(), Fail> {
    let alloc = rt.alloc();
    for byte in 0..=255u8 {
        let (place, kind) = fault_of_byte(byte);
        assert!(rt; is_system_fault(alloc, &[byte], Form::Plain, place, kind));
    }
    Ok(())
}

#[test]
fn a_plain_tree(rt: HostRuntime) -> Result<(), Fail> {
    let alloc = rt.alloc();
    let text = repeated(alloc, SYSTEM, 1, b"end # all\n ", b"")?;
    let tree = tree_of_text(alloc, &text, Form::Plain).ok_or("plain")?;
    assert!(rt; is_declared(&tree));
    assert!(rt; are_items(&tree));
    assert!(rt; tree.document == 0);
    Ok(())
}

#[test]
fn a_tree_with_questions(rt: HostRuntime) -> Result<(), Fail> {
    let alloc = rt.alloc();
    let text = repeated(alloc, SYSTEM, 1, b"questions y, 7; end", b"")?;
    let tree = tree_of_text(alloc, &text, Form::Questions).ok_or("questions")?;
    assert!(rt; tree.questions.len() == 2);
    assert!(rt; has_steps(tree.questions.get(1), &[Op::Number(7)]));
    Ok(())
}

#[test]
fn a_tree_with_values(rt: HostRuntime) -> Result<(), Fail> {
    let alloc = rt.alloc();
    let text = repeated(alloc, SYSTEM, 1, b"values y[s] = -6/4, t = 007; end", b"")?;
    let tree = tree_of_text(alloc, &text, Form::Values).ok_or("values")?;
    assert!(rt; tree.values.len() == 2);
    assert!(rt; is_value(tree.values.first(), Y_S, -3, 2));
    Ok(())
}

#[test]
fn a_tree_with_a_document(rt: HostRuntime) -> Result<(), Fail> {
    let alloc = rt.alloc();
    let text = repeated(alloc, SYSTEM, 1, b"end\n", b"any \xff")?;
    let tree = tree_of_text(alloc, &text, Form::Document).ok_or("document")?;
    assert!(rt; tree.document.checked_add(5) == Some(text.len()));
    Ok(())
}

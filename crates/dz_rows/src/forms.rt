// Polynomials, symbols and operators in their canonical texts.
ghost use Rattle.std.specs.Prelude.{◌≡◌, IfOk, IfSome};
ghost use Rattle.dz_syntax.specs.Names.{signature_of};

use dz_form::{
    ReadPolyFault, read_operator, read_poly, read_symbol, write_operator, write_poly, write_symbol,
};
use dz_poly::{Book, Limit};
use dz_rank::{Block, Kind, Operator, Ranking, Signature, Symbol};
use dz_syntax::{Form, Names, SyntaxFault, SyntaxKind, read_system};
use std::alloc::{AllocError, Global};
use std::test::Fail;

/// Independents x and y, dependents u and v, in this order.
const TWO: &[u8] = b"derivations x, y; ranking grlexA [u, v]; equations; inequations; end";

const SIGNATURE: Signature = Signature {
    independents: 2,
    dependents: 2,
};

/// Texts of polynomials, and their canonical texts.
const TEXTS: [(&[u8], &[u8]); 26] = [
    (b"u[x]^2 - 4*u", b"u[x]^2 - 4*u"),
    (b"(u + 1)^2", b"u^2 + 2*u + 1"),
    (b"-(u - x)*u", b"-u^2 + u*x"),
    (b"(u - 1)^3", b"u^3 - 3*u^2 + 3*u - 1"),
    (b"(u + v)*(u - v)", b"u^2 - v^2"),
    (b"u - (v - (x - 1))", b"u - v + x - 1"),
    (b"u^2*u^3*u^0*u^1", b"u^6"),
    (b"u^12*x^10", b"u^12*x^10"),
    (b"0^0", b"1"),
    (b"(u - u)^1", b"0"),
    (b"-2^2", b"-4"),
    (b"+ (-2)^2", b"4"),
    (b"007", b"7"),
    (b"-0", b"0"),
    (b"1*u", b"u"),
    (b"-1*u*1*v", b"-u*v"),
    (b"-x + u", b"u - x"),
    (b"2*u - 3*u", b"-u"),
    (b"u - 1 # one\n - 1", b"u - 2"),
    (b"x*y*v*u", b"u*v*x*y"),
    (b"1 + y + x + v + u", b"u + v + x + y + 1"),
    (b"u[y,x]*u[y]*u[x]", b"u[x,y]*u[x]*u[y]"),
    (
        b"v[x] + u[x,x]*2 - u[y,y] - v[x,y]",
        b"2*u[x,x] - v[x,y] - u[y,y] + v[x]",
    ),
    (b"u*y^3 + v^4 + u*x", b"u*x + u*y^3 + v^4"),
    (
        b"-170141183460469231731687303715884105727",
        b"-170141183460469231731687303715884105727",
    ),
    (b"0*170141183460469231731687303715884105727*2", b"0"),
];

/// Texts of no expression, and where and why.
const FAULTS: [(&[u8], usize, SyntaxKind); 4] = [
    (b"u +", 3, SyntaxKind::Unexpected),
    (b"", 0, SyntaxKind::Unexpected),
    (b"u = v", 2, SyntaxKind::Unexpected),
    (b"u[x] - w", 7, SyntaxKind::Unknown),
];

/// Texts of expressions of which an operation is refused, and why.
const REFUSED: [(&[u8], ReadPolyFault); 4] = [
    (b"2^127", ReadPolyFault::Wide),
    (
        b"170141183460469231731687303715884105727*2*0",
        ReadPolyFault::Wide,
    ),
    (
        b"u - 170141183460469231731687303715884105727 - 1",
        ReadPolyFault::Wide,
    ),
    (b"u^65535*u", ReadPolyFault::Large(Limit::Exponent)),
];

/// Texts of symbols: independents by their number, and derivatives of a dependent.
const INDEPENDENTS: [(&[u8], u8); 2] = [(b"x", 0), (b"y", 1)];

const DERIVATIVES: [(&[u8], u8, [u8; 4]); 4] = [
    (b"u", 0, [0; 4]),
    (b"v", 1, [0; 4]),
    (b"v[x]", 1, [1, 0, 0, 0]),
    (b"v[x,x,y]", 1, [2, 1, 0, 0]),
];

/// Texts of no symbol.
const NO_SYMBOLS: [&[u8]; 11] = [
    b"v[y,x]", b"v[]", b"v[-]", b"v[x", b"v[x]]", b"v[x,]", b"v [x]", b"x[x]", b"u[v]", b"w", b"",
];

/// Texts of operators.
const OPERATORS: [(&[u8], [u8; 4]); 3] = [
    (b"-", [0; 4]),
    (b"x", [1, 0, 0, 0]),
    (b"x,y,y", [1, 2, 0, 0]),
];

/// Texts of no operator.
const NO_OPERATORS: [&[u8]; 5] = [b"y,x", b"x,-", b"x,", b"u", b""];

/// The names x and y, u and v.
pub(crate) fn names(alloc: Global) -> Option<Names>
    ensures { IfSome result (λ names. signature_of names ≡ record { independents = 2; dependents = 2 }) }
{
    let names = read_system(alloc, TWO, Form::Plain).ok()?.names;
    let signature = names.signature();
    (signature.independents == 2 && signature.dependents == 2).then_some(names)
}

/// A book over these names.
pub(crate) fn book(alloc: Global) -> Result<Book, AllocError>
    ensures { IfOk result (λ book. book.ranking.signature ≡ record { independents = 2; dependents = 2 }) }
{
    let mut dependents = Vec::new(alloc);
    dependents.push(0)?;
    dependents.push(1)?;
    let blocks = [Block {
        kind: Kind::GrlexA,
        dependents,
    }];
    let ranking = Ranking::new(alloc, SIGNATURE, &blocks).map_err(|_| AllocError)?;
    Ok(Book::new(alloc, ranking))
}

/// The canonical text of the polynomial that a text is read as.
fn rewritten(alloc: Global, names: &Names, text: &[u8]) -> Result<Vec<u8>, ReadPolyFault>
    requires { signature_of names.now ≡ record { independents = 2; dependents = 2 } }
{
    let Ok(mut book) = book(alloc) else {
        return Err(ReadPolyFault::Memory);
    };
    let p = read_poly(alloc, &mut book, names, text)?;
    let mut written = Vec::new(alloc);
    match write_poly(&book, p, names, &mut written) {
        Ok(()) => Ok(written),
        Err(_) => Err(ReadPolyFault::Memory),
    }
}

/// Whether a text is read as the polynomial with this canonical text.
fn is_rewritten(alloc: Global, names: &Names, text: &[u8], canonical: &[u8]) -> bool
    requires { signature_of names.now ≡ record { independents = 2; dependents = 2 } }
{
    match rewritten(alloc, names, text) {
        Ok(written) => written.as_slice() == canonical,
        Err(_) => false,
    }
}

/// Whether a text is read as no polynomial, by this fault.
fn is_refused(alloc: Global, names: &Names, text: &[u8], fault: ReadPolyFault) -> bool
    requires { signature_of names.now ≡ record { independents = 2; dependents = 2 } }
{
    match rewritten(alloc, names, text) {
        Ok(_) => false,
        Err(found) => found == fault,
    }
}

/// Whether a text is that of this symbol, which is written so again.
fn is_symbol(
    alloc: Global,
    names: &Names,
    text: &[u8],
    symbol: Symbol,
) -> Result<bool, AllocError> {
    let Some(found) = read_symbol(names, text) else {
        return Ok(false);
    };
    let mut written = Vec::new(alloc);
    write_symbol(found, names, &mut written)?;
    Ok(found == symbol && written.as_slice() == text)
}

/// Whether a text is that of the operator with these exponents, which is written so again.
fn is_operator(
    alloc: Global,
    names: &Names,
    text: &[u8],
    counts: [u8; 4],
) -> Result<bool, AllocError> {
    let Some(found) = read_operator(names, text) else {
        return Ok(false);
    };
    let mut written = Vec::new(alloc);
    write_operator(found, names, &mut written)?;
    Ok(found == Operator { counts } && written.as_slice() == text)
}

#[test]
fn a_polynomial_has_a_canonical_text(rt: HostRuntime) {
    let Some(names) = names(rt.alloc()) else {
        panic!(rt; "no names");
    };
    for (text, canonical) in TEXTS.iter() {
        assert!(rt; is_rewritten(rt.alloc(), &names, text, canonical));
    }
}

#[test]
fn a_text_of_no_expression_has_a_fault(rt: HostRuntime) {
    let Some(names) = names(rt.alloc()) else {
        panic!(rt; "no names");
    };
    for (text, place, kind) in FAULTS.iter() {
        let fault = ReadPolyFault::Syntax(SyntaxFault {
            place: *place,
            kind: *kind,
        });
        assert!(rt; is_refused(rt.alloc(), &names, text, fault));
    }
}

#[test]
fn a_refused_operation_is_told(rt: HostRuntime) {
    let Some(names) = names(rt.alloc()) else {
        panic!(rt; "no names");
    };
    for (text, fault) in REFUSED.iter() {
        assert!(rt; is_refused(rt.alloc(), &names, text, *fault));
    }
}

#[test]
fn an_independent_is_its_name(rt: HostRuntime) -> Result<(), Fail> {
    let Some(names) = names(rt.alloc()) else {
        panic!(rt; "no names");
    };
    for (text, i) in INDEPENDENTS.iter() {
        assert!(rt; is_symbol(rt.alloc(), &names, text, Symbol::Independent(*i))?);
    }
    Ok(())
}

#[test]
fn a_derivative_has_its_operator_in_brackets(rt: HostRuntime) -> Result<(), Fail> {
    let Some(names) = names(rt.alloc()) else {
        panic!(rt; "no names");
    };
    for (text, dependent, counts) in DERIVATIVES.iter() {
        let symbol = Symbol::Derivative {
            dependent: *dependent,
            operator: Operator { counts: *counts },
        };
        assert!(rt; is_symbol(rt.alloc(), &names, text, symbol)?);
    }
    Ok(())
}

#[test]
fn an_operator_has_its_independents_in_order(rt: HostRuntime) -> Result<(), Fail> {
    let Some(names) = names(rt.alloc()) else {
        panic!(rt; "no names");
    };
    for (text, counts) in OPERATORS.iter() {
        assert!(rt; is_operator(rt.alloc(), &names, text, *counts)?);
    }
    Ok(())
}

#[test]
fn other_texts_are_no_symbol_and_no_operator(rt: HostRuntime) {
    let Some(names) = names(rt.alloc()) else {
        panic!(rt; "no names");
    };
    for text in NO_SYMBOLS.iter() {
        assert!(rt; read_symbol(&names, text).is_none());
    }
    for text in NO_OPERATORS.iter() {
        assert!(rt; read_operator(&names, text).is_none());
    }
}

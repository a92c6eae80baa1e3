//! Writing the canonical texts of symbols, operators and polynomials.

ghost use Rattle.std.specs.Prelude.{◌≡◌, ◌<◌, ◌++◌, ◌&&◌, ◌==◌, [], cond, codes, decimal, drop, length};
ghost use Rattle.std.specs.Prelude.{unsigned_abs, IfOk, OnErr, OnOk};
ghost use Rattle.dz_poly.specs.Books.{Lives, polynomial, term_at};
ghost use Rattle.dz_rank.specs.Symbols.{BelongsTo, IsOperatorOf};
ghost use Rattle.dz_syntax.specs.Names.{signature_of};
ghost use Rattle.dz_form.specs.Texts.{copies, derivations_text, is_identity, more_terms_text, operator_text};
ghost use Rattle.dz_form.specs.Texts.{polynomial_text, power_text, powers_text, symbol_text, term_text};
ghost use Rattle.dz_form.specs.Writing.{marked};

use dz_poly::{Book, Poly, coefficient_at, power_at, power_count, term_count};
use dz_rank::{Operator, Symbol};
use dz_syntax::Names;
use itoa::Buffer;
use std::alloc::AllocError;

/// Appends a text, after a mark where something was written before it.
fn push_marked(into: &mut Vec<u8>, mark: &[u8], first: bool, text: &[u8]) -> Result<(), AllocError>
    ensures { OnOk result (into.new.items ≡ into.old.items ++ cond first [] mark.now ++ text.now) }
{
    if !first {
        into.extend_from_slice(mark)?;
    }
    into.extend_from_slice(text)
}

/// Appends a name so often, between commas. Answers whether still nothing was written.
fn push_copies(into: &mut Vec<u8>, name: &[u8], count: u8, first: bool) -> Result<bool, AllocError>
    ensures written { OnOk result (into.new.items ≡ into.old.items ++ marked (codes ",") first (copies name.now count [])) }
    ensures still { IfOk result (λ next. next ≡ (first && count == 0)) }
{
    let mut still = first;
    'copies: for _ in 0..count {
        push_marked(into, b",", still, name)?;
        still = false;
    }
    Ok(still)
}

/// Appends the independents of an operator, each as often as its exponent says, between commas.
fn push_derivations(into: &mut Vec<u8>, names: &Names, operator: Operator) -> Result<(), AllocError>
    requires { IsOperatorOf names.now.independents operator }
    ensures { OnOk result (into.new.items ≡ into.old.items ++ derivations_text names.now operator) }
{
    let mut first = true;
    'independents: for i in 0..names.signature().independents {
        let count = operator.counts[usize::from(i)];
        first = push_copies(into, names.independent(i), count, first)?;
    }
    Ok(())
}

/// Whether the operator takes no derivation.
#[tactic(auto, using(crate::proofs::Marks::all_zero))]
fn is_identity(operator: Operator) -> bool
    ensures { result ≡ is_identity operator }
{
    operator.counts.iter().all(|count| *count == 0)
}

/// Appends the text of an operator.
#[tactic(auto, unfolding(crate::specs::Texts::operator_text))]
fn push_operator(into: &mut Vec<u8>, names: &Names, operator: Operator) -> Result<(), AllocError>
    requires { IsOperatorOf names.now.independents operator }
    ensures { OnOk result (into.new.items ≡ into.old.items ++ operator_text names.now operator) }
{
    if is_identity(operator) {
        return into.extend_from_slice(b"-");
    }
    push_derivations(into, names, operator)
}

/// Appends an operator in brackets, or nothing for the one that takes no derivation.
fn push_brackets(into: &mut Vec<u8>, names: &Names, operator: Operator) -> Result<(), AllocError>
    requires { IsOperatorOf names.now.independents operator }
    ensures { OnOk result (into.new.items ≡ into.old.items
        ++ cond (is_identity operator) [] (codes "[" ++ derivations_text names.now operator ++ codes "]")) }
{
    if is_identity(operator) {
        return Ok(());
    }
    into.extend_from_slice(b"[")?;
    push_derivations(into, names, operator)?;
    into.extend_from_slice(b"]")
}

/// Appends the canonical text of a symbol. On a refusal `into` may have a part of it.
#[tactic(auto, unfolding(crate::specs::Texts::symbol_text))]
pub fn push_symbol(into: &mut Vec<u8>, names: &Names, symbol: Symbol) -> Result<(), AllocError>
    requires { BelongsTo (signature_of names.now) symbol }
    ensures { OnOk result (into.new.items ≡ into.old.items ++ symbol_text names.now symbol) }
{
    match symbol {
        Symbol::Independent(i) => into.extend_from_slice(names.independent(i)),
        Symbol::Derivative {
            dependent,
            operator,
        } => {
            into.extend_from_slice(names.dependent(dependent))?;
            push_brackets(into, names, operator)
        }
    }
}

/// Appends a symbol, and its exponent where that is not one.
fn push_power(
    into: &mut Vec<u8>,
    names: &Names,
    symbol: Symbol,
    exponent: u16,
) -> Result<(), AllocError>
    requires { BelongsTo (signature_of names.now) symbol }
    ensures { OnOk result (into.new.items ≡ into.old.items ++ power_text names.now symbol exponent) }
{
    push_symbol(into, names, symbol)?;
    if exponent == 1 {
        return Ok(());
    }
    let mut buffer = Buffer::new();
    into.extend_from_slice(b"^")?;
    into.extend_from_slice(buffer.format(exponent).as_bytes())
}

/// Appends a power, after a star where one was written before it.
fn push_next_power(
    into: &mut Vec<u8>,
    names: &Names,
    power: (Symbol, u16),
    first: bool,
) -> Result<(), AllocError>
    requires { BelongsTo (signature_of names.now) power.0 }
    ensures { OnOk result (into.new.items ≡ into.old.items
        ++ cond first [] (codes "*") ++ power_text names.now power.0 power.1) }
{
    if !first {
        into.extend_from_slice(b"*")?;
    }
    let (symbol, exponent) = power;
    push_power(into, names, symbol, exponent)
}

/// Appends the powers of the term at a position, with stars between them.
fn push_powers(
    into: &mut Vec<u8>,
    names: &Names,
    book: &Book,
    p: Poly,
    k: usize,
) -> Result<(), AllocError>
    requires lives { Lives book.now p }
    requires inside { k < length (polynomial book.now p) }
    requires signature { signature_of names.now ≡ book.now.ranking.signature }
    ensures { OnOk result (into.new.items ≡ into.old.items ++ powers_text names.now (term_at (polynomial book.now p) k).0) }
{
    book.opened();
    'powers: for j in 0..power_count(book, p, k) {
        push_next_power(into, names, power_at(book, p, k, j), j == 0)?;
    }
    Ok(())
}

/// Appends a positive number.
fn push_number(into: &mut Vec<u8>, number: u128) -> Result<(), AllocError>
    ensures { OnOk result (into.new.items ≡ into.old.items ++ decimal number) }
{
    let mut buffer = Buffer::new();
    into.extend_from_slice(buffer.format(number).as_bytes())
}

/// Appends the term at a position, without its sign.
fn push_term(
    into: &mut Vec<u8>,
    names: &Names,
    book: &Book,
    p: Poly,
    k: usize,
) -> Result<(), AllocError>
    requires lives { Lives book.now p }
    requires inside { k < length (polynomial book.now p) }
    requires signature { signature_of names.now ≡ book.now.ranking.signature }
    ensures { OnOk result (into.new.items ≡ into.old.items ++ term_text names.now
        (term_at (polynomial book.now p) k).0 (unsigned_abs (term_at (polynomial book.now p) k).1)) }
{
    let number = coefficient_at(book, p, k).unsigned_abs();
    if power_count(book, p, k) == 0 {
        return push_number(into, number);
    }
    if number != 1 {
        push_number(into, number)?;
        into.extend_from_slice(b"*")?;
    }
    push_powers(into, names, book, p, k)
}

/// Appends what joins a term to the terms before it.
fn push_sign(into: &mut Vec<u8>, negative: bool) -> Result<(), AllocError>
    ensures { OnOk result (into.new.items ≡ into.old.items ++ cond negative (codes " - ") (codes " + ")) }
{
    if negative {
        into.extend_from_slice(b" - ")
    } else {
        into.extend_from_slice(b" + ")
    }
}

/// Appends the terms behind the first, each after its sign.
fn push_more_terms(
    into: &mut Vec<u8>,
    names: &Names,
    book: &Book,
    p: Poly,
) -> Result<(), AllocError>
    requires lives { Lives book.now p }
    requires signature { signature_of names.now ≡ book.now.ranking.signature }
    ensures { OnOk result (into.new.items ≡ into.old.items ++ more_terms_text names.now (drop 1 (polynomial book.now p))) }
{
    'terms: for k in 1..term_count(book, p) {
        push_sign(into, coefficient_at(book, p, k) < 0)?;
        push_term(into, names, book, p, k)?;
    }
    Ok(())
}

/// Appends the text of a polynomial.
#[tactic(auto, unfolding(crate::specs::Texts::polynomial_text))]
fn push_poly(into: &mut Vec<u8>, names: &Names, book: &Book, p: Poly) -> Result<(), AllocError>
    requires lives { Lives book.now p }
    requires signature { signature_of names.now ≡ book.now.ranking.signature }
    ensures { OnOk result (into.new.items ≡ into.old.items ++ polynomial_text names.now (polynomial book.now p)) }
{
    if term_count(book, p) == 0 {
        return into.extend_from_slice(b"0");
    }
    if coefficient_at(book, p, 0) < 0 {
        into.extend_from_slice(b"-")?;
    }
    push_term(into, names, book, p, 0)?;
    push_more_terms(into, names, book, p)
}

/// Appends the canonical text of an operator. On a refusal `into` is as before.
pub fn write_operator(
    operator: Operator,
    names: &Names,
    into: &mut Vec<u8>,
) -> Result<(), AllocError>
    requires { IsOperatorOf names.now.independents operator }
    ensures written { OnOk result (into.new.items ≡ into.old.items ++ operator_text names.now operator) }
    ensures refused { OnErr result (into.new.items ≡ into.old.items) }
{
    let mut text = Vec::new(*into.allocator());
    push_operator(&mut text, names, operator)?;
    into.extend_from_slice(&text)
}

/// Appends the canonical text of a symbol. On a refusal `into` is as before.
pub fn write_symbol(symbol: Symbol, names: &Names, into: &mut Vec<u8>) -> Result<(), AllocError>
    requires { BelongsTo (signature_of names.now) symbol }
    ensures written { OnOk result (into.new.items ≡ into.old.items ++ symbol_text names.now symbol) }
    ensures refused { OnErr result (into.new.items ≡ into.old.items) }
{
    let mut text = Vec::new(*into.allocator());
    push_symbol(&mut text, names, symbol)?;
    into.extend_from_slice(&text)
}

/// Appends the canonical text of a polynomial. On a refusal `into` is as before.
pub fn write_poly(book: &Book, p: Poly, names: &Names, into: &mut Vec<u8>) -> Result<(), AllocError>
    requires lives { Lives book.now p }
    requires signature { signature_of names.now ≡ book.now.ranking.signature }
    ensures written { OnOk result (into.new.items ≡ into.old.items ++ polynomial_text names.now (polynomial book.now p)) }
    ensures refused { OnErr result (into.new.items ≡ into.old.items) }
{
    let mut text = Vec::new(*into.allocator());
    push_poly(&mut text, names, book, p)?;
    into.extend_from_slice(&text)
}

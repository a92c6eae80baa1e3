//! The check of a tree, with the states of its chains.

ghost use Rattle.std.specs.Prelude.{◌≡◌, ◌<◌, ◌+◌, ◌^◌, true, false, cond, [], ◌∷◌, map, reverse};
ghost use Rattle.std.specs.Prelude.{List, All, IfOk, OnOk, OnErr};
ghost use Rattle.dz_poly.specs.Books.{IsKept};
ghost use Rattle.dz_monomials.specs.Ranked.{symbols_under};
ghost use Rattle.dz_diff.specs.Operations.{setting_of};
ghost use Rattle.dz_diff.specs.State.{State as StateRecord};
ghost use Rattle.dz_diff.specs.States.{IsStateOf, StandsIn, state_in};
ghost use Rattle.dz_tree.specs.Forms.{FormTree};
ghost use Rattle.dz_tree.specs.LineOperators.{HaveOperatorsOf};
ghost use Rattle.dz_move.specs.Lines.{entries_of};
ghost use Rattle.dz_move.specs.Systems.{IsSystemIn, system_in};
ghost use Rattle.dz_move.specs.TreeLines.{line_of};
ghost use Rattle.dz_check.specs.Collecting.{AreCollected, Collects};
ghost use Rattle.dz_check.specs.Verdicts.{is_rejected, verdict_as};
ghost use Rattle.dz_check.specs.Walk.{Verdict as VerdictValue, accepted, partial, judged, verdict_of};
ghost use Rattle.dz_check.specs.Walk.{chains_of, ends_in, ends_of, walk};
ghost use Rattle.dz_check.specs.Walking.{IsRejection, IsWalking, line_in, verdict_from};

use crate::taking::take_any;
use crate::verdict::{Checked, Verdict};
use crate::walking::{Pending, is_pair, push_state, turn};
use dz_diff::State;
use dz_move::{Line, System, root};
use dz_poly::Book;
use dz_tree::{EntryFault, Tree};
use std::alloc::{AllocError, Global};

/// What a fault tells of a tree, where the entry's own line stands at this index.
fn rejected(alloc: Global, index: usize, fault: EntryFault) -> Result<Checked, AllocError>
    requires { index + 1 + line_in fault < 2 ^ 64 }
    ensures verdict { IfOk result (λ x. (told : VerdictValue) → IsRejection (index + 1) fault told
        → verdict_as x.verdict ≡ told) }
    ensures rejected { IfOk result (λ x. is_rejected x.verdict ≡ true) }
    ensures none { IfOk result (λ x. x.chains.items ≡ []) }
{
    match fault {
        EntryFault::Memory => Err(AllocError),
        EntryFault::Rule { line, rule } => Ok(Checked {
            verdict: Verdict::Rejected {
                place: index + 1 + line,
                rule,
            },
            chains: Vec::new(alloc),
        }),
    }
}

/// The verdict on a tree that is certified.
fn certified(is_open: bool) -> Verdict
    ensures told { verdict_as result ≡ cond is_open partial accepted }
    ensures certified { is_rejected result ≡ false }
{
    if is_open {
        return Verdict::Partial;
    }
    Verdict::Accepted
}

/// The verdict on lines with the states of their chains, by a walk over them from a stack of states
/// on. What the lines behind the last chain have made stays in the book.
fn walked(
    book: &mut Book,
    stack: &mut Vec<Pending>,
    lines: &[Line],
    budget: u32,
) -> Result<Checked, AllocError>
    requires walks { IsWalking book.old book.old budget 0 (reverse stack.old.items)
        (map line_of lines.now) }
    requires operators { HaveOperatorsOf book.old.ranking.signature.independents
        (map line_of lines.now) }
    ensures verdict { IfOk result (λ x. verdict_as x.verdict
        ≡ verdict_from (setting_of book.old.ranking) budget 0 false 1 book.old
        (reverse stack.old.items) (map line_of lines.now)) }
    ensures chains { IfOk result (λ x. is_rejected x.verdict ≡ false → (whole : List StateRecord)
        → Collects book.old (setting_of book.old.ranking) whole book.old (reverse stack.old.items)
        [] (map line_of lines.now) → AreCollected book.old book.new whole x.chains.items) }
    ensures none { IfOk result (λ x. is_rejected x.verdict ≡ true → x.chains.items ≡ []) }
    ensures kept { IsKept book.old book.new }
{
    let mut chains = Vec::new(book.allocator());
    let mut weight = 0u32;
    let mut is_open = false;
    'lines: for k in 0..lines.len() {
        let line = &lines[k];
        if is_pair(line) {
            continue;
        }
        match turn(book, stack, line, &lines[k + 1..], weight, budget) {
            Ok(turned) => {
                weight = turned.weight;
                is_open |= turned.is_open;
                take_any(book, stack, &mut chains, turned.chain)?;
            }
            Err(fault) => return rejected(book.allocator(), k, fault),
        }
    }
    Ok(Checked {
        verdict: certified(is_open),
        chains,
    })
}

/// The verdict on lines that form one tree, from its root on, with the states of its chains.
fn judged(book: &mut Book, root: State, lines: &[Line], budget: u32) -> Result<Checked, AllocError>
    requires stands { StandsIn book.old root }
    requires facts { IsStateOf (symbols_under book.old.ranking) (state_in book.old root) }
    requires tree { FormTree (map line_of lines.now) }
    requires operators { HaveOperatorsOf book.old.ranking.signature.independents
        (map line_of lines.now) }
    ensures verdict { IfOk result (λ x. verdict_as x.verdict ≡ judged (walk
        (setting_of book.old.ranking) budget 0 1 (state_in book.old root ∷ [])
        (entries_of (map line_of lines.now)))) }
    ensures chains { IfOk result (λ x. AreCollected book.old book.new (chains_of (ends_in (walk
        (setting_of book.old.ranking) budget 0 1 (state_in book.old root ∷ [])
        (entries_of (map line_of lines.now))))) x.chains.items) }
    ensures kept { IsKept book.old book.new }
{
    let mut stack = Vec::new(book.allocator());
    push_state(&mut stack, root, book.mark())?;
    walked(book, &mut stack, lines, budget)
}

/// The verdict on a tree for a system with the states of its chains, where polynomials that are made
/// on the way stay in the book.
fn checked(
    alloc: Global,
    book: &mut Book,
    system: &System,
    tree: &Tree,
) -> Result<Checked, AllocError>
    requires system { IsSystemIn book.old system.now }
    requires operators { HaveOperatorsOf book.old.ranking.signature.independents tree.now.lines }
    ensures verdict { IfOk result (λ x. verdict_as x.verdict
        ≡ verdict_of (setting_of book.old.ranking) (system_in book.old system.now) tree.now) }
    ensures chains { IfOk result (λ x. AreCollected book.old book.new (chains_of (ends_in (ends_of
        (setting_of book.old.ranking) (system_in book.old system.now) tree.now))) x.chains.items) }
    ensures kept { IsKept book.old book.new }
{
    tree.opened();
    let root = root(alloc, book, system)?;
    judged(book, root, tree.lines(), tree.budget())
}

/// The verdict on a tree for a system: each line is looked at once, in its order, and the first that
/// does not hold is told with the first rule that fails there.
pub fn check(
    alloc: Global,
    book: &mut Book,
    system: &System,
    tree: &Tree,
) -> Result<Verdict, AllocError>
    requires system { IsSystemIn book.old system.now }
    requires operators { HaveOperatorsOf book.old.ranking.signature.independents tree.now.lines }
    ensures verdict { IfOk result (λ v. verdict_as v ≡ verdict_of (setting_of book.old.ranking)
        (system_in book.old system.now) tree.now) }
    ensures book { book.new ≡ book.old }
{
    let mark = book.mark();
    let checked = checked(alloc, book, system, tree);
    book.restore(mark);
    Ok(checked?.verdict)
}

/// The verdict on a tree for a system, as [`check`] tells it, and the states of its chains in their
/// order, by one walk; there are none of a tree that is not certified.
pub fn check_with_chains(
    alloc: Global,
    book: &mut Book,
    system: &System,
    tree: &Tree,
) -> Result<Checked, AllocError>
    requires system { IsSystemIn book.old system.now }
    requires operators { HaveOperatorsOf book.old.ranking.signature.independents tree.now.lines }
    ensures verdict { IfOk result (λ x. verdict_as x.verdict
        ≡ verdict_of (setting_of book.old.ranking) (system_in book.old system.now) tree.now) }
    ensures chains { IfOk result (λ x. map (λ s. state_in book.new s) x.chains.items
        ≡ chains_of (ends_in (ends_of (setting_of book.old.ranking)
        (system_in book.old system.now) tree.now))) }
    ensures stand { IfOk result (λ x. All (λ s. StandsIn book.new s) x.chains.items) }
    ensures facts { IfOk result (λ x. All (λ s. IsStateOf (symbols_under book.new.ranking)
        (state_in book.new s)) x.chains.items) }
    ensures kept { OnOk result (IsKept book.old book.new) }
    ensures refused { OnErr result (book.new ≡ book.old) }
{
    let mark = book.mark();
    match checked(alloc, book, system, tree) {
        Ok(checked) => Ok(checked),
        Err(error) => {
            book.restore(mark);
            Err(error)
        }
    }
}

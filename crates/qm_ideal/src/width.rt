//! The width of a circuit: the least capacity of a store in which every letter finds room.
ghost use Rattle.std.specs.Prelude.{◌≡◌, ◌*◌, ◌≤◌, ◌++◌, ◌&&◌, [], ◌∷◌, not, if◌then◌else◌, length, filter, IfOk, OnOk};
ghost use Rattle.qm_denot.specs.declared.Wire.{Wire};
ghost use Rattle.qm_denot.specs.Stores.{live_after};
ghost use Rattle.qm_denot.specs.Weights.{operands};
ghost use Rattle.qm_denot.specs.WireLists.{with_renamed};
ghost use Rattle.qm_denot.specs.Wires.{is_wire};
ghost use Rattle.qm_proto.specs.Model.Ideal.{made_fresh, width};
ghost use Rattle.qm_ideal.specs.Widths.{is_unnamed, is_unnamed_with};

use qm_denot::{Letter, Wire};
use qm_limits::{MOST_RANKS, SLOTS};
use std::alloc::{AllocError, Global};
use std::collections::BTreeSet;

/// Makes a wire fresh, where no letter has named it.
fn make_fresh(live: &mut Vec<Wire>, named: &BTreeSet<Wire>, w: Wire) -> Result<(), AllocError>
    ensures { OnOk result (live.new.items
        ≡ live.old.items ++ filter (is_unnamed named.now) (w ∷ [])) }
{
    if !named.contains(&w) {
        live.push(w)?;
    }
    Ok(())
}

/// Makes the wires fresh that a letter needs and that none before it has named.
fn prepare(live: &mut Vec<Wire>, named: &BTreeSet<Wire>, letter: Letter) -> Result<(), AllocError>
    ensures { OnOk result (live.new.items
        ≡ live.old.items ++ filter (is_unnamed named.now) (made_fresh letter)) }
{
    match letter {
        Letter::Phase { w, .. }
        | Letter::Flip { w }
        | Letter::Had { w }
        | Letter::Keep { w, .. }
        | Letter::Take { w, .. } => make_fresh(live, named, w)?,
        Letter::Cx { c, t } | Letter::Cz { c, t } => {
            make_fresh(live, named, c)?;
            make_fresh(live, named, t)?;
        }
        Letter::Rename { a, .. } => make_fresh(live, named, a)?,
        Letter::Pair { .. } => {}
    }
    Ok(())
}

/// The wire, or `b` in the place of `a`.
fn renamed(wire: Wire, a: Wire, b: Wire) -> Wire
    ensures { result ≡ (if is_wire wire a then b else wire) }
{
    if wire == a { b } else { wire }
}

/// Puts `b` in the place of `a`.
fn rename(live: &mut [Wire], a: Wire, b: Wire)
    ensures { live.new ≡ with_renamed live.old a b }
{
    for wire in live.iter_mut() {
        *wire = renamed(*wire, a, b);
    }
}

/// Changes the live wires as a letter does.
fn pass(live: &mut Vec<Wire>, letter: Letter) -> Result<(), AllocError>
    ensures { OnOk result (live.new.items ≡ live_after letter live.old.items) }
{
    match letter {
        Letter::Pair { a, b } => {
            live.push(a)?;
            live.push(b)?;
        }
        Letter::Take { w, .. } => live.retain(|v| *v != w),
        Letter::Rename { a, b } => rename(live.as_mut_slice(), a, b),
        _ => {}
    }
    Ok(())
}

/// Notes that a wire is named.
fn note(named: &mut BTreeSet<Wire>, w: Wire) -> Result<(), AllocError>
    ensures { OnOk result ((v : Wire)
        → is_unnamed named.new v ≡ (not (is_wire w v) && is_unnamed named.old v)) }
{
    named.insert(w)?;
    Ok(())
}

/// Notes the wires that a letter names.
fn note_all(named: &mut BTreeSet<Wire>, letter: Letter) -> Result<(), AllocError>
    ensures { OnOk result ((v : Wire)
        → is_unnamed named.new v ≡ is_unnamed_with (is_unnamed named.old) (operands letter) v) }
{
    match letter {
        Letter::Phase { w, .. }
        | Letter::Flip { w }
        | Letter::Had { w }
        | Letter::Keep { w, .. }
        | Letter::Take { w, .. } => note(named, w)?,
        Letter::Cx { c: a, t: b }
        | Letter::Cz { c: a, t: b }
        | Letter::Pair { a, b }
        | Letter::Rename { a, b } => {
            note(named, a)?;
            note(named, b)?;
        }
    }
    Ok(())
}

/// How many of these wires no letter has named.
fn unnamed(named: &BTreeSet<Wire>, ends: &[Wire]) -> usize
    ensures { result ≡ length (filter (is_unnamed named.now) ends.now) }
{
    ends.iter().filter(|w| !named.contains(*w)).count()
}

/// The width of a circuit at whose end these wires stand in slots. `AllocError` comes from the allocator alone.
pub(crate) fn width(alloc: Global, letters: &[Letter], ends: &[Wire]) -> Result<usize, AllocError>
    requires { length ends.now ≤ MOST_RANKS * SLOTS }
    ensures { IfOk result (λ n. n ≡ width letters.now ends.now) }
{
    let mut named = BTreeSet::new(alloc);
    let mut live = Vec::new(alloc);
    let mut widest: usize = 0;
    for letter in letters {
        prepare(&mut live, &named, *letter)?;
        widest = widest.max(live.len());
        pass(&mut live, *letter)?;
        note_all(&mut named, *letter)?;
    }
    Ok(widest.max(live.len() + unnamed(&named, ends)))
}

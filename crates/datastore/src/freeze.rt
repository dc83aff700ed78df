// Names that hold references, moved to what they expand to.
ghost use Rattle.std.specs.Prelude.{◌≡◌, ◌++◌, ◌∷◌, [], List, OnOk, IfOk, IfErr, Ok, map, filter};
ghost use Rattle.meta_model.specs.declared.entry.EntryLine.TheVariants.{Later};
ghost use Rattle.meta_model.specs.declared.entry.EntryLine.{EntryLine as Line};
ghost use Rattle.meta_model.specs.Active as entries;
ghost use Rattle.meta_model.specs.Base as base;
ghost use Rattle.meta_model.specs.Frozen as frozen;
ghost use Rattle.datastore.specs.Faults.{IsDataFault};
ghost use Rattle.datastore.specs.Looked.{AreOf};
ghost use Rattle.value_maps.specs.Telling.{move_of};
ghost use Rattle.datastore.specs.Telling.{parted, IsPushed};
ghost use Rattle.meta_model.specs.Passing.{behind};
ghost use Rattle.value_maps.specs.Maps.{Keeps, base_of, is_anew};
ghost use Rattle.value_maps.specs.Keys.{AreKeys};
ghost use Rattle.datastore.specs.Anew.{IsAnew, moved};

use crate::fault::DataFault;
use crate::line::late_line;
use crate::looked::{Overrides, expand_over};
use crate::store::Datastore;
use meta_model::{EntryLine, LateLine};
use std::alloc::Global;
use tree_model::{Mem, Text, Texts};
use value_maps::{Maps, push_line};
use var_expand::{are_name_bytes, holds_opening};

/// The name that a name goes to: what it expands to where it holds `${`, unless that is no name of a reference.
fn target_of(
    alloc: Global,
    store: &Datastore,
    overrides: &Overrides,
    name: &str,
) -> Result<Text, DataFault>
    requires { AreOf store.now overrides.now }
    ensures ok { IfOk result (λ made. frozen.target_of store.now name.now (frozen.holds_reference name.now) ≡ Ok made) }
    ensures err { IfErr result (λ fault. IsDataFault fault
        (frozen.target_of store.now name.now (frozen.holds_reference name.now))) }
{
    if !holds_opening(name.as_bytes()) {
        return Ok(Text::from_str(alloc, name)?);
    }
    let target = expand_over(alloc, name, store, overrides)?;
    if are_name_bytes(target.as_str().as_bytes()) {
        return Ok(target);
    }
    Ok(Text::from_str(alloc, name)?)
}

/// Puts a copy of a name and another text at the end.
fn push_pair(list: &mut Vec<(Text, Text)>, name: &Text, target: Text) -> Result<(), Mem>
    ensures { OnOk result (list.new.items ≡ list.old.items ++ (name.now, target) ∷ []) }
{
    let name = name.copy()?;
    Ok(list.push((name, target))?)
}

/// Each name with the name that it goes to.
fn moves_of(
    alloc: Global,
    store: &Datastore,
    overrides: &Overrides,
    names: &[Text],
) -> Result<Vec<(Text, Text)>, DataFault>
    requires { AreOf store.now overrides.now }
    ensures ok { IfOk result (λ made. frozen.moves store.now names.now ≡ Ok (map move_of made.items)) }
    ensures err { IfErr result (λ fault. IsDataFault fault (frozen.moves store.now names.now)) }
{
    let mut made = Vec::new(alloc);
    for name in names {
        let target = target_of(alloc, store, overrides, name.as_str())?;
        push_pair(&mut made, name, target)?;
    }
    Ok(made)
}

/// Conditions, expanded.
fn conditions_of(
    alloc: Global,
    store: &Datastore,
    overrides: &Overrides,
    when: &[Text],
) -> Result<Texts, DataFault>
    requires { AreOf store.now overrides.now }
    ensures ok { IfOk result (λ made. frozen.conditions store.now when.now ≡ Ok made) }
    ensures err { IfErr result (λ fault. IsDataFault fault (frozen.conditions store.now when.now)) }
{
    let mut made = Texts::new(alloc);
    for text in when {
        made.push(expand_over(alloc, text.as_str(), store, overrides)?)?;
    }
    Ok(made)
}

/// Puts a late entry with these conditions behind the lines, as one of another name.
fn push_late(
    lines: &mut Vec<EntryLine>,
    target: &Text,
    late: &LateLine,
    when: Texts,
) -> Result<(), Mem>
    ensures { OnOk result (lines.new.items ≡ lines.old.items ++ Later target.now late.now.kind when late.now.text
        ∷ []) }
{
    push_line(lines, late_line(target, late.kind, when, &late.text)?)
}

/// Puts late entries behind the lines, as those of another name.
fn push_lates(
    lines: &mut Vec<EntryLine>,
    alloc: Global,
    store: &Datastore,
    overrides: &Overrides,
    target: &Text,
    lates: &[LateLine],
) -> Result<(), DataFault>
    requires { AreOf store.now overrides.now }
    ensures ok { OnOk result (behind lines.old.items (frozen.told_lates store.now target.now lates.now)
        ≡ Ok lines.new.items) }
    ensures err { IfErr result (λ fault. IsDataFault fault (frozen.told_lates store.now target.now lates.now)) }
{
    for late in lates {
        let when = conditions_of(alloc, store, overrides, late.when.as_slice())?;
        push_late(lines, target, late, when)?;
    }
    Ok(())
}

/// All that a name has as lines of another, behind the lines.
fn push_told(
    lines: &mut Vec<EntryLine>,
    alloc: Global,
    store: &Datastore,
    overrides: &Overrides,
    source: &str,
    target: &Text,
) -> Result<(), DataFault>
    requires { AreOf store.now overrides.now }
    ensures ok { OnOk result (behind lines.old.items (frozen.told store.now (move_of (source.now, target.now)))
        ≡ Ok lines.new.items) }
    ensures err { IfErr result (λ fault. IsDataFault fault (frozen.told store.now (move_of (source.now, target.now)))) }
{
    let maps = store.maps();
    maps.push_named(lines, alloc, source, target)?;
    push_lates(
        lines,
        alloc,
        store,
        overrides,
        target,
        maps.lates_of(source),
    )
}

/// All that one name has, behind the lines of the names that stay or behind those of the names that move.
fn push_move(
    staying: &mut Vec<EntryLine>,
    moving: &mut Vec<EntryLine>,
    alloc: Global,
    store: &Datastore,
    overrides: &Overrides,
    pair: &(Text, Text),
) -> Result<(), DataFault>
    requires { AreOf store.now overrides.now }
    ensures ok { OnOk result (IsPushed staying.old.items moving.old.items staying.new.items moving.new.items
        (frozen.stays (move_of pair.now)) (frozen.told store.now (move_of pair.now))) }
    ensures err { IfErr result (λ fault. IsDataFault fault (frozen.told store.now (move_of pair.now))) }
{
    let source = pair.0.as_str();
    let target = &pair.1;
    if source == target.as_str() {
        push_told(staying, alloc, store, overrides, source, target)
    } else {
        push_told(moving, alloc, store, overrides, source, target)
    }
}

/// All that names have: the lines of those that stay, and the lines of those that move.
fn push_moves(
    staying: &mut Vec<EntryLine>,
    moving: &mut Vec<EntryLine>,
    alloc: Global,
    store: &Datastore,
    overrides: &Overrides,
    moves: &[(Text, Text)],
) -> Result<(), DataFault>
    requires { AreOf store.now overrides.now }
    ensures ok { OnOk result (parted staying.old.items moving.old.items
        (frozen.told_all store.now (map move_of moves.now)) ≡ Ok (staying.new.items, moving.new.items)) }
    ensures err { IfErr result (λ fault. IsDataFault fault
        (parted staying.old.items moving.old.items (frozen.told_all store.now (map move_of moves.now)))) }
{
    for pair in moves {
        push_move(staying, moving, alloc, store, overrides, pair)?;
    }
    Ok(())
}

/// What is told again where names are moved: the names, and their lines. All other names keep what they have.
#[derive(Drop)]
pub(crate) struct Anew {
    pub(crate) names: Texts,
    pub(crate) staying: Vec<EntryLine>,
    pub(crate) moving: Vec<EntryLine>,
}

/// The lines of these names: of those that stay, and of those that move.
fn lines_of(
    alloc: Global,
    store: &Datastore,
    overrides: &Overrides,
    moves: &[(Text, Text)],
) -> Result<(Vec<EntryLine>, Vec<EntryLine>), DataFault>
    requires { AreOf store.now overrides.now }
    ensures ok { IfOk result (λ made. parted [] [] (frozen.told_all store.now (map move_of moves.now))
        ≡ Ok (made.0.items, made.1.items)) }
    ensures err { IfErr result (λ fault. IsDataFault fault
        (parted [] [] (frozen.told_all store.now (map move_of moves.now)))) }
{
    let mut staying = Vec::new(alloc);
    let mut moving = Vec::new(alloc);
    push_moves(&mut staying, &mut moving, alloc, store, overrides, moves)?;
    Ok((staying, moving))
}

/// Those of some names of which something is left, each with the name that it goes to.
fn moves_among(
    alloc: Global,
    store: &Datastore,
    maps: &Maps,
    overrides: &Overrides,
    names: &[Text],
) -> Result<Vec<(Text, Text)>, DataFault>
    requires overrides { AreOf store.now overrides.now }
    requires keeps { Keeps store.now maps.now }
    requires names { AreKeys names.now (is_anew maps.now) }
    ensures ok { IfOk result (λ made. frozen.moves store.now (filter (is_anew maps.now) (base.names store.now))
        ≡ Ok (map move_of made.items)) }
    ensures err { IfErr result (λ fault. IsDataFault fault (frozen.frozen store.now)) }
{
    let left = maps.left_among(alloc, names)?;
    moves_of(alloc, store, overrides, left.as_slice())
}

/// What is told again of a store whose maps these are.
pub(crate) fn tell_anew(
    alloc: Global,
    store: &Datastore,
    maps: &Maps,
    overrides: &Overrides,
) -> Result<Anew, DataFault>
    requires overrides { AreOf store.now overrides.now }
    requires keeps { Keeps store.now maps.now }
    ensures ok { IfOk result (λ made. IsAnew store.now maps.now made) }
    ensures err { IfErr result (λ fault. IsDataFault fault (frozen.frozen store.now)) }
{
    let names = maps.anew(alloc)?;
    let moves = moves_among(alloc, store, maps, overrides, names.as_slice())?;
    let (staying, moving) = lines_of(alloc, store, overrides, moves.as_slice())?;
    Ok(Anew {
        names,
        staying,
        moving,
    })
}

/// The maps once names are moved.
pub(crate) fn retell(alloc: Global, maps: Maps, anew: Anew) -> Result<Maps, Mem>
    ensures { (list : List Line) → Keeps list maps → IsAnew list maps anew
        → IfOk result (λ made. (base_of made ≡ base_of maps) × Keeps (moved list) made) }
{
    let mut made = maps.hide(alloc, anew.names.as_slice())?;
    made.change_all(alloc, anew.staying.as_slice())?;
    made.change_all(alloc, anew.moving.as_slice())?;
    Ok(made)
}

/// Applies copies of these entries.
pub(crate) fn apply_all(
    store: &mut Datastore,
    alloc: Global,
    lines: &[EntryLine],
) -> Result<(), Mem>
    ensures { OnOk result (store.new ≡ store.old ++ lines.now) }
{
    for line in lines {
        store.apply(alloc, line)?;
    }
    Ok(())
}

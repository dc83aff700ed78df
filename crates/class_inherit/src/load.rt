// Files, with all that they include and inherit. `left` is how many more files may be nested.
ghost use Rattle.std.specs.Prelude.{◌≡◌, [], true, false, Some, Ok, IfOk, IfErr, OnOk, map};
ghost use Rattle.meta_model.specs.Entries as entries;
ghost use Rattle.outside_traits.specs.Fault.{Counts};
ghost use Rattle.outside_traits.specs.Store.{SameFiles};
ghost use Rattle.load_model.specs.LoadRefusal.{asked_at, missing_required, missing_class};
ghost use Rattle.load_model.specs.Loading.{read_within, statements_after, statement_after, includes_after, include_after, classes_after, class_after, with_class};
ghost use Rattle.class_inherit.specs.Adding.{added};
ghost use Rattle.class_inherit.specs.Faults.{where_is, is_read, IsSaid, IsUntold, IsLoadFault, load_failed};
ghost use Rattle.class_inherit.specs.Naming.{includes_named, classes_named};
ghost use Rattle.class_inherit.specs.Reading.{contents_meant, contents_for, origin_meant, sources_for, statement_for, text_for, words_in};

use crate::contents::Contents;
use crate::fault::{LoadFault, LoadKind, Place, out_of_memory, refused, refused_value};
use crate::layer_text::{add_for, words_for};
use crate::paths::class_of;
use crate::reading::Reading;
use crate::search::{search, search_class};
use meta_model::{Kind, Statement};
use outside_traits::Layers;
use path_words::folder_of;
use std::alloc::Global;
use tree_model::{Text, Texts};

/// The file that is read: its path, its kind, and, where that is a class, the name of the class that it belongs to.
#[derive(Drop)]
pub(crate) struct Origin<'a> {
    pub(crate) path: &'a str,
    pub(crate) kind: Kind,
    pub(crate) class: &'a str,
}

/// The words of a statement's text, expanded over the entries so far.
fn words_at(
    alloc: Global,
    reading: &Reading,
    layer: &Option<Text>,
    place: &Place,
    text: &Text,
) -> Result<Texts, LoadFault>
    ensures ok { IfOk result (λ made. asked_at (where_is place.now)
        (words_in reading.now.lines (text_for layer.now text.now)) ≡ Ok made) }
    ensures err { IfErr result (λ fault. IsLoadFault fault
        (asked_at (where_is place.now) (words_in reading.now.lines (text_for layer.now text.now)))) }
    ensures not_read { load_failed result ≡ false }
{
    match words_for(alloc, reading, layer, text) {
        Ok(words) => Ok(words),
        Err(fault) => Err(refused_value(alloc, place, fault)),
    }
}

/// The entries of a statement that names no file.
fn add_at(
    alloc: Global,
    layer: &Option<Text>,
    reading: &mut Reading,
    place: &Place,
    class: &str,
    statement: &Statement,
) -> Result<(), LoadFault>
    ensures ok { OnOk result (asked_at (where_is place.now)
        (added reading.old (entries.lines_of class.now reading.old.lines (statement_for layer.now statement.now)))
        ≡ Ok reading.new) }
    ensures err { IfErr result (λ fault. IsLoadFault fault
        (asked_at (where_is place.now) (added reading.old
        (entries.lines_of class.now reading.old.lines (statement_for layer.now statement.now))))) }
    ensures not_read { load_failed result ≡ false }
{
    match add_for(alloc, reading, class, layer, statement) {
        Ok(()) => Ok(()),
        Err(fault) => Err(refused_value(alloc, place, fault)),
    }
}

/// A file isn't there that has to be.
pub(crate) fn missing_file(alloc: Global, place: &Place, path: &str) -> LoadFault
    ensures said { IsSaid result (where_is place.now) (Some (missing_required path.now)) }
    ensures not_read { is_read result.kind ≡ false }
{
    match Text::from_str(alloc, path) {
        Ok(path) => refused(alloc, place, LoadKind::MissingRequired { path }),
        Err(_) => out_of_memory(alloc),
    }
}

/// A file that isn't there is refused where it has to be.
pub(crate) fn pass_file(
    alloc: Global,
    place: &Place,
    must: bool,
    path: &str,
) -> Result<(), LoadFault>
    ensures ok { OnOk result (must ≡ false) }
    ensures err { IfErr result (λ fault. (must ≡ true)
        × IsSaid fault (where_is place.now) (Some (missing_required path.now))) }
    ensures not_read { load_failed result ≡ false }
{
    if must {
        Err(missing_file(alloc, place, path))
    } else {
        Ok(())
    }
}

/// A class that isn't there is refused where it has to be.
fn pass_class(alloc: Global, place: &Place, must: bool, name: &str) -> Result<(), LoadFault>
    ensures ok { OnOk result (must ≡ false) }
    ensures err { IfErr result (λ fault. (must ≡ true)
        × IsSaid fault (where_is place.now) (Some (missing_class name.now))) }
    ensures not_read { load_failed result ≡ false }
{
    if !must {
        return Ok(());
    }
    match Text::from_str(alloc, name) {
        Ok(name) => Err(refused(alloc, place, LoadKind::MissingClass { name })),
        Err(_) => Err(out_of_memory(alloc)),
    }
}

/// The reading of a class begins.
fn begin_class(alloc: Global, reading: &mut Reading, name: &str) -> Result<(), LoadFault>
    ensures ok { OnOk result (reading.new ≡ with_class name.now reading.old) }
    ensures err { IfErr result IsUntold }
    ensures not_read { load_failed result ≡ false }
{
    match reading.begin(alloc, name) {
        Ok(()) => Ok(()),
        Err(_) => Err(out_of_memory(alloc)),
    }
}

/// A file that was found. One beyond those that may be nested is refused at the statement that names it, and what is wrong
/// with a file before any of its statements counts.
#[cycle(load)]
pub(crate) fn read_found<L: Layers>(
    alloc: Global,
    layers: &mut L,
    layer: &Option<Text>,
    reading: &mut Reading,
    left: usize,
    place: &Place,
    origin: &Origin,
    contents: &Contents,
) -> Result<(), LoadFault>
    ensures ok { OnOk result (L.tells → read_within left (sources_for layer.now (L.files layers.old))
        (where_is place.now) (origin_meant origin.now) (contents_for layer.now (contents_meant contents.now))
        reading.old ≡ Ok reading.new) }
    ensures err { IfErr result (λ fault. L.tells → IsLoadFault fault
        (read_within left (sources_for layer.now (L.files layers.old)) (where_is place.now) (origin_meant origin.now)
        (contents_for layer.now (contents_meant contents.now)) reading.old)) }
    ensures same { SameFiles L.files layers.old layers.new }
    ensures cause { Counts (L.faults layers.old) (L.faults layers.new) (load_failed result) }
{
    if left == 0 {
        return Err(refused(alloc, place, LoadKind::IncludeDepth));
    }
    match contents {
        Contents::Whole(list) => run_statements(
            alloc,
            layers,
            layer,
            reading,
            left - 1,
            origin,
            list.as_slice(),
        ),
        Contents::Faulty { line, wrong } => {
            let place = Place {
                file: origin.path,
                line: *line,
            };
            Err(refused(alloc, &place, LoadKind::Parse(*wrong)))
        }
        Contents::TooLong => {
            let place = Place {
                file: origin.path,
                line: 0,
            };
            Err(refused(alloc, &place, LoadKind::FileBytes))
        }
    }
}

/// The statements of a file, each over the entries before it.
#[cycle(load)]
fn run_statements<L: Layers>(
    alloc: Global,
    layers: &mut L,
    layer: &Option<Text>,
    reading: &mut Reading,
    left: usize,
    origin: &Origin,
    list: &[(u32, Statement)],
) -> Result<(), LoadFault>
    ensures ok { OnOk result (L.tells → statements_after
        (read_within left (sources_for layer.now (L.files layers.old))) (sources_for layer.now (L.files layers.old))
        (origin_meant origin.now) (map (λ s. (s.0, statement_for layer.now s.1)) list.now) reading.old
        ≡ Ok reading.new) }
    ensures err { IfErr result (λ fault. L.tells → IsLoadFault fault
        (statements_after (read_within left (sources_for layer.now (L.files layers.old)))
        (sources_for layer.now (L.files layers.old)) (origin_meant origin.now)
        (map (λ s. (s.0, statement_for layer.now s.1)) list.now) reading.old)) }
    ensures same { SameFiles L.files layers.old layers.new }
    ensures cause { Counts (L.faults layers.old) (L.faults layers.new) (load_failed result) }
{
    for (line, statement) in list {
        let place = Place {
            file: origin.path,
            line: *line,
        };
        run_statement(
            alloc, layers, layer, reading, left, &place, origin, statement,
        )?;
    }
    Ok(())
}

/// What a statement adds. The text of `include`, `require` and `inherit` is expanded over all entries so far, and its words are
/// the names.
#[cycle(load)]
fn run_statement<L: Layers>(
    alloc: Global,
    layers: &mut L,
    layer: &Option<Text>,
    reading: &mut Reading,
    left: usize,
    place: &Place,
    origin: &Origin,
    statement: &Statement,
) -> Result<(), LoadFault>
    ensures ok { OnOk result (L.tells → statement_after
        (read_within left (sources_for layer.now (L.files layers.old))) (sources_for layer.now (L.files layers.old))
        (where_is place.now) (origin_meant origin.now) (statement_for layer.now statement.now) reading.old
        ≡ Ok reading.new) }
    ensures err { IfErr result (λ fault. L.tells → IsLoadFault fault
        (statement_after (read_within left (sources_for layer.now (L.files layers.old)))
        (sources_for layer.now (L.files layers.old)) (where_is place.now) (origin_meant origin.now)
        (statement_for layer.now statement.now) reading.old)) }
    ensures same { SameFiles L.files layers.old layers.new }
    ensures cause { Counts (L.faults layers.old) (L.faults layers.new) (load_failed result) }
{
    match statement {
        Statement::Include { path } => include_named(
            alloc, layers, layer, reading, left, place, origin, false, path,
        ),
        Statement::Require { path } => include_named(
            alloc, layers, layer, reading, left, place, origin, true, path,
        ),
        Statement::Inherit { names } => {
            inherit_named(alloc, layers, layer, reading, left, place, names)
        }
        _ => add_at(alloc, layer, reading, place, origin.class, statement),
    }
}

/// The files that the text of an `include` or `require` names.
#[cycle(load)]
fn include_named<L: Layers>(
    alloc: Global,
    layers: &mut L,
    layer: &Option<Text>,
    reading: &mut Reading,
    left: usize,
    place: &Place,
    origin: &Origin,
    must: bool,
    text: &Text,
) -> Result<(), LoadFault>
    ensures ok { OnOk result (L.tells → includes_named (read_within left (sources_for layer.now (L.files layers.old)))
        (sources_for layer.now (L.files layers.old)) (where_is place.now) (origin_meant origin.now) must layer.now
        text.now reading.old ≡ Ok reading.new) }
    ensures err { IfErr result (λ fault. L.tells → IsLoadFault fault
        (includes_named (read_within left (sources_for layer.now (L.files layers.old)))
        (sources_for layer.now (L.files layers.old)) (where_is place.now) (origin_meant origin.now) must layer.now
        text.now reading.old)) }
    ensures same { SameFiles L.files layers.old layers.new }
    ensures cause { Counts (L.faults layers.old) (L.faults layers.new) (load_failed result) }
{
    match words_at(alloc, reading, layer, place, text) {
        Ok(words) => {
            let words = words.as_slice();
            include_words(
                alloc, layers, layer, reading, left, place, origin, must, words,
            )
        }
        Err(fault) => Err(fault),
    }
}

/// The classes that the text of an `inherit` names.
#[cycle(load)]
fn inherit_named<L: Layers>(
    alloc: Global,
    layers: &mut L,
    layer: &Option<Text>,
    reading: &mut Reading,
    left: usize,
    place: &Place,
    text: &Text,
) -> Result<(), LoadFault>
    ensures ok { OnOk result (L.tells → classes_named (read_within left (sources_for layer.now (L.files layers.old)))
        (sources_for layer.now (L.files layers.old)) (where_is place.now) text.now reading.old ≡ Ok reading.new) }
    ensures err { IfErr result (λ fault. L.tells → IsLoadFault fault
        (classes_named (read_within left (sources_for layer.now (L.files layers.old)))
        (sources_for layer.now (L.files layers.old)) (where_is place.now) text.now reading.old)) }
    ensures same { SameFiles L.files layers.old layers.new }
    ensures cause { Counts (L.faults layers.old) (L.faults layers.new) (load_failed result) }
{
    match words_at(alloc, reading, &None, place, text) {
        Ok(names) => inherit_words(alloc, layers, layer, reading, left, place, names.as_slice()),
        Err(fault) => Err(fault),
    }
}

/// The words of one `include` or `require`, in order (own rule).
#[cycle(load)]
fn include_words<L: Layers>(
    alloc: Global,
    layers: &mut L,
    layer: &Option<Text>,
    reading: &mut Reading,
    left: usize,
    place: &Place,
    origin: &Origin,
    must: bool,
    words: &[Text],
) -> Result<(), LoadFault>
    ensures ok { OnOk result (L.tells → includes_after (read_within left (sources_for layer.now (L.files layers.old)))
        (sources_for layer.now (L.files layers.old)) (where_is place.now) (origin_meant origin.now) must words.now
        reading.old ≡ Ok reading.new) }
    ensures err { IfErr result (λ fault. L.tells → IsLoadFault fault
        (includes_after (read_within left (sources_for layer.now (L.files layers.old)))
        (sources_for layer.now (L.files layers.old)) (where_is place.now) (origin_meant origin.now) must words.now
        reading.old)) }
    ensures same { SameFiles L.files layers.old layers.new }
    ensures cause { Counts (L.faults layers.old) (L.faults layers.new) (load_failed result) }
{
    for word in words {
        include_word(
            alloc,
            layers,
            layer,
            reading,
            left,
            place,
            origin,
            must,
            word.as_str(),
        )?;
    }
    Ok(())
}

/// A word of `include` or `require` names a file, which is searched in the folder of the file that holds the statement first.
/// Where there is none, `include` passes it over, and `require` is refused ("include Directive", "require Directive"). A file
/// that is included has the kind and the class of the file that includes it (own rule).
#[cycle(load)]
fn include_word<L: Layers>(
    alloc: Global,
    layers: &mut L,
    layer: &Option<Text>,
    reading: &mut Reading,
    left: usize,
    place: &Place,
    origin: &Origin,
    must: bool,
    word: &str,
) -> Result<(), LoadFault>
    ensures ok { OnOk result (L.tells → include_after (read_within left (sources_for layer.now (L.files layers.old)))
        (sources_for layer.now (L.files layers.old)) (where_is place.now) (origin_meant origin.now) must word.now
        reading.old ≡ Ok reading.new) }
    ensures err { IfErr result (λ fault. L.tells → IsLoadFault fault
        (include_after (read_within left (sources_for layer.now (L.files layers.old)))
        (sources_for layer.now (L.files layers.old)) (where_is place.now) (origin_meant origin.now) must word.now
        reading.old)) }
    ensures same { SameFiles L.files layers.old layers.new }
    ensures cause { Counts (L.faults layers.old) (L.faults layers.new) (load_failed result) }
{
    let folder = folder_of(origin.path);
    match search(
        alloc,
        layers,
        reading,
        place,
        origin.kind,
        Some(folder),
        word,
    ) {
        Ok(Some(found)) => {
            let included = Origin {
                path: found.path.as_str(),
                kind: origin.kind,
                class: origin.class,
            };
            read_found(
                alloc,
                layers,
                layer,
                reading,
                left,
                place,
                &included,
                &found.contents,
            )
        }
        Ok(None) => pass_file(alloc, place, must, word),
        Err(fault) => Err(fault),
    }
}

/// The classes of one `inherit`, in order (own rule). Each has to be there.
#[cycle(load)]
pub(crate) fn inherit_words<L: Layers>(
    alloc: Global,
    layers: &mut L,
    layer: &Option<Text>,
    reading: &mut Reading,
    left: usize,
    place: &Place,
    names: &[Text],
) -> Result<(), LoadFault>
    ensures ok { OnOk result (L.tells → classes_after (read_within left (sources_for layer.now (L.files layers.old)))
        (sources_for layer.now (L.files layers.old)) (where_is place.now) true names.now reading.old
        ≡ Ok reading.new) }
    ensures err { IfErr result (λ fault. L.tells → IsLoadFault fault
        (classes_after (read_within left (sources_for layer.now (L.files layers.old)))
        (sources_for layer.now (L.files layers.old)) (where_is place.now) true names.now reading.old)) }
    ensures same { SameFiles L.files layers.old layers.new }
    ensures cause { Counts (L.faults layers.old) (L.faults layers.new) (load_failed result) }
{
    for name in names {
        inherit_word(
            alloc,
            layers,
            layer,
            reading,
            left,
            place,
            true,
            name.as_str(),
        )?;
    }
    Ok(())
}

/// A class. Each is read once: one whose reading has begun is passed over, and isn't searched (own rules).
#[cycle(load)]
pub(crate) fn inherit_word<L: Layers>(
    alloc: Global,
    layers: &mut L,
    layer: &Option<Text>,
    reading: &mut Reading,
    left: usize,
    place: &Place,
    must: bool,
    name: &str,
) -> Result<(), LoadFault>
    ensures ok { OnOk result (L.tells → class_after (read_within left (sources_for layer.now (L.files layers.old)))
        (sources_for layer.now (L.files layers.old)) (where_is place.now) must name.now reading.old
        ≡ Ok reading.new) }
    ensures err { IfErr result (λ fault. L.tells → IsLoadFault fault
        (class_after (read_within left (sources_for layer.now (L.files layers.old)))
        (sources_for layer.now (L.files layers.old)) (where_is place.now) must name.now reading.old)) }
    ensures same { SameFiles L.files layers.old layers.new }
    ensures cause { Counts (L.faults layers.old) (L.faults layers.new) (load_failed result) }
{
    if reading.has_begun(name) {
        return Ok(());
    }
    match search_class(alloc, layers, reading, place, name) {
        Ok(Some(found)) => {
            begin_class(alloc, reading, name)?;
            let origin = Origin {
                path: found.path.as_str(),
                kind: Kind::Class,
                class: class_of(found.path.as_str()),
            };
            read_found(
                alloc,
                layers,
                layer,
                reading,
                left,
                place,
                &origin,
                &found.contents,
            )
        }
        Ok(None) => pass_class(alloc, place, must, name),
        Err(fault) => Err(fault),
    }
}

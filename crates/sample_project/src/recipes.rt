// The recipes of the sample.
ghost use Rattle.std.specs.Prelude.{◌≡◌, ◌++◌, IfOk, OnOk};
ghost use Rattle.std.specs.Fmt.{decimal};
ghost use Rattle.outside_mem.specs.Layers.{AreFrom};
ghost use Rattle.outside_mem.specs.Told.{fixed_at};
ghost use Rattle.sample_project.specs.Sample as sample;

use itoa::Buffer;
use outside_mem::FixedLayers;
use std::alloc::Global;
use tree_model::{Bytes, Mem, Text, Texts};

/// Puts a number at the end.
fn push_number(made: &mut Text, number: u32) -> Result<(), Mem>
    ensures { OnOk result (made.new ≡ made.old ++ decimal number) }
{
    made.push_str(Buffer::new().format(number))
}

/// The name of a recipe.
fn name_of(alloc: Global, number: u32) -> Result<Text, Mem>
    ensures { IfOk result (λ made. made ≡ sample.recipe_name number) }
{
    let mut made = Text::from_str(alloc, "s")?;
    push_number(&mut made, number)?;
    Ok(made)
}

/// The path of a recipe's file.
fn path_of(alloc: Global, number: u32) -> Result<Text, Mem>
    ensures { IfOk result (λ made. made ≡ sample.recipe_path number) }
{
    let mut made = Text::from_str(alloc, "recipes/")?;
    made.push_str(name_of(alloc, number)?.as_str())?;
    made.push_str("_1.0.bb")?;
    Ok(made)
}

/// The line of what a recipe needs.
fn needs_of(alloc: Global, number: u32) -> Result<Text, Mem>
    ensures { IfOk result (λ made. made ≡ sample.needs_line number) }
{
    if number == 0 {
        return Ok(Text::new(alloc));
    }
    let mut made = Text::from_str(alloc, "DEPENDS = \"")?;
    made.push_str(name_of(alloc, number / 2)?.as_str())?;
    made.push_str("\"\n")?;
    Ok(made)
}

/// Puts at the end what follows behind a recipe's number.
fn push_rest(made: &mut Text) -> Result<(), Mem>
    ensures { OnOk result (made.new ≡ made.old ++ sample.rest_text) }
{
    made.push_str(
        " > a.txt\n}\ndo_build() {\n    cat a.txt > b.txt\n}\naddtask prep\naddtask build after prep\ndo_build[deptask] = \"do_build\"\n",
    )
}

/// Puts a recipe's tasks at the end.
fn push_tasks(made: &mut Text, number: u32) -> Result<(), Mem>
    ensures { OnOk result (made.new ≡ made.old ++ sample.tasks_text number) }
{
    made.push_str("do_prep() {\n    echo ")?;
    push_number(made, number)?;
    push_rest(made)?;
    Ok(())
}

/// What a recipe's file holds.
fn text_of(alloc: Global, number: u32) -> Result<Text, Mem>
    ensures { IfOk result (λ made. made ≡ sample.recipe_text number) }
{
    let mut made = needs_of(alloc, number)?;
    push_tasks(&mut made, number)?;
    Ok(made)
}

/// A recipe's file.
fn file_of(alloc: Global, number: u32) -> Result<(Text, Bytes), Mem>
    ensures { IfOk result (λ made. made ≡ sample.recipe_file number) }
{
    let path = path_of(alloc, number)?;
    let bytes = Bytes::from_slice(alloc, text_of(alloc, number)?.as_str().as_bytes())?;
    Ok((path, bytes))
}

/// The files of the sample of so many recipes.
fn files_of(alloc: Global, size: u32) -> Result<Vec<(Text, Bytes)>, Mem>
    ensures { IfOk result (λ made. made.items ≡ sample.sample_files size) }
{
    let mut made = Vec::new(alloc);
    for number in 0..size {
        made.push(file_of(alloc, number)?)?;
    }
    Ok(made)
}

/// Layers that hold the sample of so many recipes.
pub fn sample_layers(alloc: Global, size: u32) -> Result<FixedLayers, Mem>
    ensures { IfOk result (λ layers. AreFrom (sample.sample_files size) (fixed_at layers)) }
{
    FixedLayers::new(alloc, files_of(alloc, size)?)
}

/// The targets of the sample of so many recipes: all of them, in order.
pub fn sample_targets(alloc: Global, size: u32) -> Result<Texts, Mem>
    ensures { IfOk result (λ made. made ≡ sample.sample_names size) }
{
    let mut made = Texts::new(alloc);
    for number in 0..size {
        made.push(name_of(alloc, number)?)?;
    }
    Ok(made)
}

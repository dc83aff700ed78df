// Work folders of tasks that no recipe has any more.
use meta_model::RecipeFacts;
use outside_os::FolderLayers;
use project_reading::{read_config, read_recipes};
use std::alloc::AllocError;
use std::rt::Files;
use std::{fs, io};

/// Where they stand, from the current folder: of each recipe a folder, with one for each task.
const WORK: &str = "build/work";

/// Whether the shell reads a path as one word, as it stands.
fn is_plain(path: &str) -> bool {
    for sign in path.chars() {
        if !sign.is_ascii_alphanumeric()
            && !matches!(sign, '/' | '.' | '_' | '-' | '+' | ':' | '@' | '%')
        {
            return false;
        }
    }
    true
}

/// Puts a path as the shell reads it.
fn put_word(text: &mut String, path: &str) -> Result<(), AllocError> {
    if is_plain(path) {
        return text.push_str(path);
    }
    text.push('\'')?;
    for sign in path.chars() {
        if sign == '\'' {
            text.push_str("'\\''")?;
        } else {
            text.push(sign)?;
        }
    }
    text.push('\'')
}

/// The names of a folder's entries, in order; none where it can't be listed.
fn names_in(rt: &HostRuntime, folder: &str) -> io::Result<Vec<String>> {
    let mut names = Vec::new(rt.alloc());
    if let Ok(entries) = fs::read_dir(rt, folder) {
        for entry in entries {
            if let Ok(entry) = entry {
                names.push(String::from_str(rt.alloc(), entry.file_name())?)?;
            }
        }
    }
    names.sort()?;
    Ok(names)
}

/// Whether a recipe has the task.
fn has_task(recipe: &RecipeFacts, task: &str) -> bool {
    recipe
        .tasks
        .as_slice()
        .iter()
        .any(|it| it.task.as_str() == task)
}

/// Puts the folders of a recipe that are of no task of it.
fn put_tasks(
    rt: &HostRuntime,
    text: &mut String,
    recipe: &RecipeFacts,
    folder: &str,
) -> io::Result<()> {
    for task in &names_in(rt, folder)? {
        if !has_task(recipe, task.as_str()) {
            let path = format!(in rt.alloc(); "{folder}/{task}")?;
            text.push(' ')?;
            put_word(text, path.as_str())?;
        }
    }
    Ok(())
}

/// The recipe with a name.
fn recipe_of<'r>(recipes: &'r [RecipeFacts], pn: &str) -> Option<&'r RecipeFacts> {
    for recipe in recipes {
        if recipe.pn.as_str() == pn {
            return Some(recipe);
        }
    }
    None
}

/// Puts the folder of a recipe's name, where no recipe has it, or those in it that are of no task of the recipe.
fn put_recipe(
    rt: &HostRuntime,
    text: &mut String,
    recipes: &[RecipeFacts],
    pn: &str,
) -> io::Result<()> {
    let folder = format!(in rt.alloc(); "{WORK}/{pn}")?;
    if let Some(recipe) = recipe_of(recipes, pn) {
        return put_tasks(rt, text, recipe, folder.as_str());
    }
    text.push(' ')?;
    put_word(text, folder.as_str())?;
    Ok(())
}

/// The work folders of tasks that none of these recipes has, each behind a space.
fn leavings(rt: &HostRuntime, recipes: &[RecipeFacts]) -> io::Result<String> {
    let mut text = String::new(rt.alloc());
    for pn in &names_in(rt, WORK)? {
        put_recipe(rt, &mut text, recipes, pn.as_str())?;
    }
    Ok(text)
}

/// Says on standard error which work folders are of tasks that no recipe has any more, with the command that removes them. Where the metadata can't be read
/// nothing is said.
pub fn tell_leavings(rt: &HostRuntime) -> io::Result<()> {
    let mut layers = FolderLayers::new(rt.clone()?);
    let Ok(config) = read_config(rt.alloc(), &mut layers) else {
        return Ok(());
    };
    let Ok(set) = read_recipes(rt.alloc(), &mut layers, &config) else {
        return Ok(());
    };
    let folders = leavings(rt, set.facts().recipes.as_slice())?;
    if !folders.is_empty() {
        let _ = eprintln!(rt;
            "bitbake: clean: these are of tasks that no recipe has any more; this removes them: rm -r{folders}"
        );
    }
    Ok(())
}

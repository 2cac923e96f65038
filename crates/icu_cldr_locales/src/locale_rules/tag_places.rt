//! The tags that a text of rules may import.

use std::alloc::{AllocError, Global};

/// Pushes a tag, unless it is there already.
fn push_once<'r>(tags: &mut Vec<&'r str>, tag: &'r str) -> Result<(), AllocError> {
    for known in tags.iter() {
        if *known == tag {
            return Ok(());
        }
    }
    tags.push(tag)?;
    Ok(())
}

/// The tags that stand behind `[import` in a text of rules, each once: all that its rules import, and maybe some of a
/// comment or a quoted string. By them a caller knows which files it has to read.
pub fn import_tags<'r>(alloc: Global, rules: &'r str) -> Result<Vec<&'r str>, AllocError> {
    let mut tags = Vec::new(alloc);
    let mut unread = rules;
    'reading: while let Some((_, behind)) = unread.split_once("[import") {
        let Some((tag, rest)) = behind.split_once("]") else {
            return Ok(tags);
        };
        push_once(&mut tags, tag.trim())?;
        unread = rest;
    }
    Ok(tags)
}

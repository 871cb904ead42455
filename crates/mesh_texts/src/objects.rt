// Objects of JSON.
ghost use Rattle.std.specs.Prelude.{◌≡◌, ◌++◌, decimal, map, option_map, IfOk, OnOk};
ghost use Rattle.mesh_info.specs.Info.Lines.{quoted};
ghost use Rattle.mesh_texts.specs.Objects.{array, behind, entries_of, entry_of, entry_text, listed, object, object_line, optional, texts_of, truth_value};

use crate::texts::put_count;
use ember_model::OutOfMemory;
use mesh_info::put_quoted;
use std::alloc::Global;

/// A key, and the text of its value.
#[derive(Drop)]
pub struct Member {
    pub key: &'static [u8],
    pub value: Vec<u8>,
}

/// The member with this key and value.
pub fn keyed(key: &'static [u8], value: Vec<u8>) -> Member
    ensures { entry_of result ≡ (key.now, value.items) }
{
    Member { key, value }
}

// Appends a key and its value.
fn put_member(member: &Member, text: &mut Vec<u8>) -> Result<(), OutOfMemory>
    ensures { OnOk result (text.new.items ≡ text.old.items ++ entry_text (entry_of member.now)) }
{
    put_quoted(member.key, text)?;
    text.extend_from_slice(b": ")?;
    text.extend_from_slice(&member.value)
}

// Appends each of the members behind a comma.
fn put_members_behind(members: &[Member], text: &mut Vec<u8>) -> Result<(), OutOfMemory>
    ensures { OnOk result (text.new.items ≡
        text.old.items ++ behind (map entry_text (entries_of members.now))) }
{
    for member in members {
        text.extend_from_slice(b", ")?;
        put_member(member, text)?;
    }
    Ok(())
}

// Appends the members with commas between them.
fn put_members(members: &[Member], text: &mut Vec<u8>) -> Result<(), OutOfMemory>
    ensures { OnOk result (text.new.items ≡
        text.old.items ++ listed (map entry_text (entries_of members.now))) }
{
    let Some((first, others)) = members.split_first() else {
        return Ok(());
    };
    put_member(first, text)?;
    put_members_behind(others, text)
}

/// The object with these members.
pub fn object(alloc: Global, members: &[Member]) -> Result<Vec<u8>, OutOfMemory>
    ensures { IfOk result (λ text. text.items ≡ object (entries_of members.now)) }
{
    let mut text = Vec::from_slice(alloc, b"{")?;
    put_members(members, &mut text)?;
    text.extend_from_slice(b"}")?;
    Ok(text)
}

/// The object with these members, in a line of its own.
pub fn object_line(alloc: Global, members: &[Member]) -> Result<Vec<u8>, OutOfMemory>
    ensures { IfOk result (λ text. text.items ≡ object_line (entries_of members.now)) }
{
    let mut text = object(alloc, members)?;
    text.extend_from_slice(b"\n")?;
    Ok(text)
}

// Appends each of the values behind a comma.
fn put_values_behind(values: &[Vec<u8>], text: &mut Vec<u8>) -> Result<(), OutOfMemory>
    ensures { OnOk result (text.new.items ≡ text.old.items ++ behind (texts_of values.now)) }
{
    for value in values {
        text.extend_from_slice(b", ")?;
        text.extend_from_slice(value)?;
    }
    Ok(())
}

// Appends the values with commas between them.
fn put_values(values: &[Vec<u8>], text: &mut Vec<u8>) -> Result<(), OutOfMemory>
    ensures { OnOk result (text.new.items ≡ text.old.items ++ listed (texts_of values.now)) }
{
    let Some((first, others)) = values.split_first() else {
        return Ok(());
    };
    text.extend_from_slice(first)?;
    put_values_behind(others, text)
}

/// The array of the values with these texts.
pub fn array(alloc: Global, values: &[Vec<u8>]) -> Result<Vec<u8>, OutOfMemory>
    ensures { IfOk result (λ text. text.items ≡ array (texts_of values.now)) }
{
    let mut text = Vec::from_slice(alloc, b"[")?;
    put_values(values, &mut text)?;
    text.extend_from_slice(b"]")?;
    Ok(text)
}

/// A string.
pub fn string(alloc: Global, value: &[u8]) -> Result<Vec<u8>, OutOfMemory>
    ensures { IfOk result (λ text. text.items ≡ quoted value.now) }
{
    let mut text = Vec::new(alloc);
    put_quoted(value, &mut text)?;
    Ok(text)
}

/// A string, or null.
pub fn optional(alloc: Global, value: Option<&[u8]>) -> Result<Vec<u8>, OutOfMemory>
    ensures { IfOk result (λ text. text.items ≡ optional (option_map (λ v. v.now) value.entry)) }
{
    match value {
        Some(value) => string(alloc, value),
        None => Vec::from_slice(alloc, b"null"),
    }
}

/// `true` or `false`.
pub fn truth_value(alloc: Global, holds: bool) -> Result<Vec<u8>, OutOfMemory>
    ensures { IfOk result (λ text. text.items ≡ truth_value holds) }
{
    if holds {
        Vec::from_slice(alloc, b"true")
    } else {
        Vec::from_slice(alloc, b"false")
    }
}

/// A count.
pub fn number(alloc: Global, count: u64) -> Result<Vec<u8>, OutOfMemory>
    ensures { IfOk result (λ text. text.items ≡ decimal count) }
{
    let mut text = Vec::new(alloc);
    put_count(count, &mut text)?;
    Ok(text)
}

// Merge patches of many members, against the plain definition over lists of numbers.
use crate::calls::merge;
use json_doc::{Doc, read_document};
use json_text::{Error, ErrorCode, Place, Result as TextResult};
use json_value::View;
use std::alloc::{AllocError, Global};
use std::rc::Rc;
use test_fixtures::{shows, whole};

// A member: the number in its key, and its value, which is null if there is none.
type Member = (usize, Option<usize>);

// `count` members, with keys below `keys`, of which each `nulls`-th is null.
#[derive(Clone, Copy)]
struct Members {
    count: usize,
    keys: usize,
    nulls: usize,
}

// Those three numbers of an object and of a patch.
type Numbers = ([usize; 3], [usize; 3]);

fn some(numbers: [usize; 3]) -> Members {
    let [count, keys, nulls] = numbers;
    Members { count, keys, nulls }
}

fn make_members(alloc: Global, members: Members) -> Result<Vec<Member>, AllocError> {
    let mut made = Vec::new(alloc);
    for i in 0..members.count {
        let key = i.wrapping_mul(7919).checked_rem(members.keys).unwrap_or(0);
        let is_null = i.wrapping_add(1).checked_rem(members.nulls) == Some(0);
        made.push((key, if is_null { None } else { Some(i) }))?;
    }
    Ok(made)
}

fn member_text(alloc: Global, member: &Member) -> Result<String, AllocError> {
    match member.1 {
        Some(number) => format!(in alloc; "\"key {}\":{number}", member.0),
        None => format!(in alloc; "\"key {}\":null", member.0),
    }
}

// The compact text of an object.
fn object_text(alloc: Global, members: &[Member]) -> Result<String, AllocError> {
    let mut text = String::from_str(alloc, "{")?;
    for (i, member) in members.iter().enumerate() {
        text.push_str(if i == 0 { "" } else { "," })?;
        text.push_str(member_text(alloc, member)?.as_str())?;
    }
    text.push_str("}")?;
    Ok(text)
}

fn read_object(alloc: Global, members: &[Member]) -> TextResult<Rc<Doc>> {
    let text = object_text(alloc, members)?;
    if text.len() < 1_000_000 {
        read_document(alloc, text.as_str())
    } else {
        Err(Error {
            code: ErrorCode::TooLarge,
            place: Place::None,
        })
    }
}

// What RFC 7396 says of members that are no objects.
fn merge_plainly(members: &mut Vec<Member>, patch: &[Member]) -> Result<(), AllocError> {
    for (key, value) in patch {
        if value.is_none() {
            members.retain(|member| member.0 != *key);
            continue;
        }
        match members.iter_mut().find(|member| member.0 == *key) {
            Some(member) => member.1 = *value,
            None => members.push((*key, *value))?,
        }
    }
    Ok(())
}

// Whether the merge patch makes of the value of the document what the text says.
fn merges(alloc: Global, document: &Rc<Doc>, patch: View<'_>, want: &str) -> TextResult<bool> {
    let mut value = whole(alloc, document)?;
    if merge(alloc, &mut value, patch) {
        shows(alloc, &value, want)
    } else {
        Ok(false)
    }
}

// The same of the members of an object and of a patch.
fn merges_into(alloc: Global, object: &[Member], patch: &[Member], want: &str) -> TextResult<bool> {
    let (document, patch) = (read_object(alloc, object)?, read_object(alloc, patch)?);
    merges(alloc, &document, View::packed(patch.view()), want)
}

// The text of the object that the definition makes of these members.
fn merged_text(alloc: Global, object: &[Member], patch: &[Member]) -> Result<String, AllocError> {
    let mut members = object.to_vec(alloc)?;
    merge_plainly(&mut members, patch)?;
    object_text(alloc, members.as_slice())
}

fn merges_as_defined(alloc: Global, object: Members, patch: Members) -> TextResult<bool> {
    let object = make_members(alloc, object)?;
    let patch = make_members(alloc, patch)?;
    let want = merged_text(alloc, object.as_slice(), patch.as_slice())?;
    merges_into(alloc, object.as_slice(), patch.as_slice(), want.as_str())
}

// The number of the first row whose merge patch makes something else than the definition.
fn first_wrong(alloc: Global, rows: &[Numbers]) -> TextResult<Option<usize>> {
    for (i, (object, patch)) in rows.iter().enumerate() {
        if !merges_as_defined(alloc, some(*object), some(*patch))? {
            return Ok(Some(i));
        }
    }
    Ok(None)
}

const MANY_INTO_MANY: [Numbers; 3] = [
    ([2000, 5000, 5000], [300, 299, 5000]),
    ([400, 300, 7], [400, 250, 3]),
    ([400, 400, 5], [300, 400, 2]),
];

#[test]
fn many_members_merged_into_many(rt: HostRuntime) {
    assert!(rt; matches!(first_wrong(rt.alloc(), &MANY_INTO_MANY), Ok(None)));
}

const INTO_FEW_OR_NONE: [Numbers; 5] = [
    ([0, 1, 1], [400, 150, 4]),
    ([300, 20, 3], [16, 20, 2]),
    ([255, 9000, 2], [1, 9000, 9]),
    ([200, 9000, 2], [15, 9000, 2]),
    ([300, 1, 2], [20, 2, 2]),
];

#[test]
fn members_merged_into_few_keys_or_none(rt: HostRuntime) {
    assert!(rt; matches!(first_wrong(rt.alloc(), &INTO_FEW_OR_NONE), Ok(None)));
}

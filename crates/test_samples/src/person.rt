// A program's own type.
ghost use Rattle.std.specs.Prelude.{ℕ, pos, map, string_bytes};
ghost use Rattle.json_model.specs.Datum.{null_datum, text_datum, integer_datum, list_datum, list_data, option_datum, no_data};
ghost use Rattle.json_data.specs.Members.{read_object};
ghost use Rattle.test_samples.specs.Person.{person_parts, person_step, person_datum, person_made};

use json_data::{
    DeserializeFrom, InputStr, Members, Tokens, error_without_place, read_members, try_read_members,
};
use json_print::Events;
use json_text::{ErrorCode, Result};
use json_write::{Field, KeyRoom, Serialize, serialize_fields};
use std::alloc::Global;

/// A person: an object with the members `name` and `age`, and `phones` where there are any. Others
/// are skipped.
#[derive(Drop)]
pub struct Person {
    /// What the person is called.
    pub name: String,
    /// In years.
    pub age: u8,
    /// Where the person is called.
    pub phones: Vec<String>,
}

/// What is read so far of a person.
#[derive(Drop)]
pub struct PersonMembers {
    name: Option<String>,
    age: Option<u8>,
    phones: Vec<String>,
}

impl<S: InputStr> Members<S> for PersonMembers {
    ghost so_far = { λ m. person_parts (option_datum (λ s. text_datum (string_bytes s)) m.name)
        (option_datum (λ n. integer_datum (pos n)) m.age)
        (list_datum (list_data (map (λ s. text_datum (string_bytes s)) m.phones.items))) };

    ghost step = { person_step };

    fn member<T: Tokens<S>>(&mut self, alloc: Global, name: &str, tokens: &mut T) -> Result<()> {
        if name == "name" {
            let text = <String as DeserializeFrom<S>>::deserialize(alloc, tokens)?;
            self.name = Some(text);
            return Ok(());
        }
        if name == "age" {
            let years = <u8 as DeserializeFrom<S>>::deserialize(alloc, tokens)?;
            self.age = Some(years);
            return Ok(());
        }
        if name == "phones" {
            let all = <Vec<String> as DeserializeFrom<S>>::deserialize(alloc, tokens)?;
            self.phones = all;
            return Ok(());
        }
        tokens.skip()
    }
}

impl<S: InputStr> DeserializeFrom<S> for Person {
    ghost datum = { λ p. person_datum (string_bytes p.name) (integer_datum (pos p.age))
        (list_datum (list_data (map (λ s. text_datum (string_bytes s)) p.phones.items))) };

    ghost from_tree = { read_object person_step (person_parts null_datum null_datum (list_datum no_data)) person_made };

    fn deserialize<T: Tokens<S>>(alloc: Global, tokens: &mut T) -> Result<Person> {
        let mut members = PersonMembers {
            name: None,
            age: None,
            phones: Vec::new(alloc),
        };
        read_members(alloc, &mut members, tokens)?;
        match (members.name, members.age) {
            (Some(name), Some(age)) => Ok(Person {
                name,
                age,
                phones: members.phones,
            }),
            _ => Err(error_without_place(ErrorCode::TypeUnmatched)),
        }
    }

    // This may be left out: with it a list of people asks no kind before each.
    fn try_deserialize<T: Tokens<S>>(alloc: Global, tokens: &mut T) -> Result<Option<Person>> {
        let mut members = PersonMembers {
            name: None,
            age: None,
            phones: Vec::new(alloc),
        };
        if !try_read_members(alloc, &mut members, tokens)? {
            return Ok(None);
        }
        match (members.name, members.age) {
            (Some(name), Some(age)) => Ok(Some(Person {
                name,
                age,
                phones: members.phones,
            })),
            _ => Err(error_without_place(ErrorCode::TypeUnmatched)),
        }
    }
}

impl Serialize for Person {
    ghost datum = { λ p. person_datum (string_bytes p.name) (integer_datum (pos p.age))
        (list_datum (list_data (map (λ s. text_datum (string_bytes s)) p.phones.items))) };

    fn serialize<E: Events>(&self, out: &mut E) -> Result<()> {
        let fields = (
            Field {
                name: "name",
                value: &self.name,
            },
            (
                Field {
                    name: "age",
                    value: &self.age,
                },
                Field {
                    name: "phones",
                    value: &self.phones,
                },
            ),
        );
        serialize_fields(&fields, out)
    }

    fn key<'k>(&'k self, room: &'k mut KeyRoom) -> Option<&'k str> {
        let _ = room;
        None
    }
}

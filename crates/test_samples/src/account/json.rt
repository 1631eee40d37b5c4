// Written by tools/make/derive from the structs of the file above: edit those and run it again.
ghost use Rattle.std.specs.Prelude.{[], ◌∷◌, codes, false, pos, true};
ghost use Rattle.json_derive.specs.Datum.{boolean_datum, integer_datum, list_data, list_datum, no_data, null_datum, text_datum};
ghost use Rattle.json_derive.specs.Fields.{field_datum, or_default, read_struct as spec_read_struct, required as needed, struct_datum};

use super::{Account, Customer};
use json_derive::{
    Builder, DeserializeFrom, ErrorCode, Events, Field, InputStr, KeyRoom, Result, Serialize,
    Tokens, error_without_place, read_struct, required, serialize_fields, try_read_struct,
};
use std::alloc::Global;

// What was read of the members of `Customer` so far.
#[derive(Drop)]
struct CustomerBuilder {
    name: Option<String>,
    age: Option<u8>,
    phones: Option<Vec<String>>,
}

impl<S: InputStr> Builder<S> for CustomerBuilder {
    type Built = Customer;

    ghost shape = { record {
      fields = needed (codes "name") ⟦<String as DeserializeFrom<S>>⟧.from_tree
          ∷ needed (codes "age") ⟦<u8 as DeserializeFrom<S>>⟧.from_tree
          ∷ or_default (codes "phones") ⟦<Vec<String> as DeserializeFrom<S>>⟧.from_tree (list_datum no_data)
          ∷ [];
      strict = false;
    } };

    ghost so_far = { λ b. list_data (field_datum ⟦<String as DeserializeFrom<S>>⟧.datum b.name
        ∷ field_datum ⟦<u8 as DeserializeFrom<S>>⟧.datum b.age
        ∷ field_datum ⟦<Vec<String> as DeserializeFrom<S>>⟧.datum b.phones
        ∷ []) };

    ghost values = { λ v. ⟦<String as DeserializeFrom<S>>⟧.datum v.name
        ∷ ⟦<u8 as DeserializeFrom<S>>⟧.datum v.age
        ∷ ⟦<Vec<String> as DeserializeFrom<S>>⟧.datum v.phones
        ∷ [] };

    fn new() -> Self {
        CustomerBuilder {
            name: None,
            age: None,
            phones: None,
        }
    }

    fn member<T: Tokens<S>>(&mut self, alloc: Global, name: &str, tokens: &mut T) -> Result<()> {
        match name {
            "name" => {
                let value = <String as DeserializeFrom<S>>::deserialize(alloc, tokens)?;
                self.name = Some(value);
            }
            "age" => {
                let value = <u8 as DeserializeFrom<S>>::deserialize(alloc, tokens)?;
                self.age = Some(value);
            }
            "phones" => {
                let value = <Vec<String> as DeserializeFrom<S>>::deserialize(alloc, tokens)?;
                self.phones = Some(value);
            }
            _ => tokens.skip()?,
        }
        Ok(())
    }

    fn build(self, alloc: Global) -> Result<Customer> {
        let CustomerBuilder { name, age, phones } = self;
        Ok(Customer {
            name: required(name)?,
            age: required(age)?,
            phones: match phones {
                Some(phones) => phones,
                None => Vec::new(alloc),
            },
        })
    }
}

impl<S: InputStr> DeserializeFrom<S> for Customer {
    ghost datum = { λ v. struct_datum ⟦<CustomerBuilder as Builder<S>>⟧.shape (⟦<CustomerBuilder as Builder<S>>⟧.values v) };

    ghost from_tree = { spec_read_struct ⟦<CustomerBuilder as Builder<S>>⟧.shape };

    fn deserialize<T: Tokens<S>>(alloc: Global, tokens: &mut T) -> Result<Customer> {
        read_struct::<S, CustomerBuilder, T>(alloc, tokens)
    }

    fn try_deserialize<T: Tokens<S>>(alloc: Global, tokens: &mut T) -> Result<Option<Customer>> {
        try_read_struct::<S, CustomerBuilder, T>(alloc, tokens)
    }
}

impl Serialize for Customer {
    ghost datum = { ⟦<Customer as DeserializeFrom<&'static str>>⟧.datum };

    fn serialize<E: Events>(&self, out: &mut E) -> Result<()> {
        let fields = (
            Field {
                name: "name",
                value: &self.name,
            },
            (
                Field {
                    name: "age",
                    value: &self.age,
                },
                Field {
                    name: "phones",
                    value: &self.phones,
                },
            ),
        );
        serialize_fields(&fields, out)
    }

    fn key<'k>(&'k self, room: &'k mut KeyRoom) -> Option<&'k str> {
        let _ = room;
        None
    }
}

// What was read of the members of `Account` so far.
#[derive(Drop)]
struct AccountBuilder {
    owner: Option<Customer>,
    balance: Option<i64>,
    style: Option<String>,
    active: Option<bool>,
    note: Option<Option<String>>,
}

impl<S: InputStr> Builder<S> for AccountBuilder {
    type Built = Account;

    ghost shape = { record {
      fields = needed (codes "owner") ⟦<Customer as DeserializeFrom<S>>⟧.from_tree
          ∷ or_default (codes "balance-cents") ⟦<i64 as DeserializeFrom<S>>⟧.from_tree (integer_datum (pos 0))
          ∷ or_default (codes "style") ⟦<String as DeserializeFrom<S>>⟧.from_tree (text_datum (codes "plain"))
          ∷ or_default (codes "active") ⟦<bool as DeserializeFrom<S>>⟧.from_tree (boolean_datum true)
          ∷ or_default (codes "note") ⟦<Option<String> as DeserializeFrom<S>>⟧.from_tree (null_datum)
          ∷ [];
      strict = true;
    } };

    ghost so_far = { λ b. list_data (field_datum ⟦<Customer as DeserializeFrom<S>>⟧.datum b.owner
        ∷ field_datum ⟦<i64 as DeserializeFrom<S>>⟧.datum b.balance
        ∷ field_datum ⟦<String as DeserializeFrom<S>>⟧.datum b.style
        ∷ field_datum ⟦<bool as DeserializeFrom<S>>⟧.datum b.active
        ∷ field_datum ⟦<Option<String> as DeserializeFrom<S>>⟧.datum b.note
        ∷ []) };

    ghost values = { λ v. ⟦<Customer as DeserializeFrom<S>>⟧.datum v.owner
        ∷ ⟦<i64 as DeserializeFrom<S>>⟧.datum v.balance
        ∷ ⟦<String as DeserializeFrom<S>>⟧.datum v.style
        ∷ ⟦<bool as DeserializeFrom<S>>⟧.datum v.active
        ∷ ⟦<Option<String> as DeserializeFrom<S>>⟧.datum v.note
        ∷ [] };

    fn new() -> Self {
        AccountBuilder {
            owner: None,
            balance: None,
            style: None,
            active: None,
            note: None,
        }
    }

    fn member<T: Tokens<S>>(&mut self, alloc: Global, name: &str, tokens: &mut T) -> Result<()> {
        match name {
            "owner" => {
                let value = <Customer as DeserializeFrom<S>>::deserialize(alloc, tokens)?;
                self.owner = Some(value);
            }
            "balance-cents" => {
                let value = <i64 as DeserializeFrom<S>>::deserialize(alloc, tokens)?;
                self.balance = Some(value);
            }
            "style" => {
                let value = <String as DeserializeFrom<S>>::deserialize(alloc, tokens)?;
                self.style = Some(value);
            }
            "active" => {
                let value = <bool as DeserializeFrom<S>>::deserialize(alloc, tokens)?;
                self.active = Some(value);
            }
            "note" => {
                let value = <Option<String> as DeserializeFrom<S>>::deserialize(alloc, tokens)?;
                self.note = Some(value);
            }
            _ => {
                tokens.skip()?;
                return Err(error_without_place(ErrorCode::TypeUnmatched));
            }
        }
        Ok(())
    }

    fn build(self, alloc: Global) -> Result<Account> {
        let AccountBuilder {
            owner,
            balance,
            style,
            active,
            note,
        } = self;
        Ok(Account {
            owner: required(owner)?,
            balance: match balance {
                Some(balance) => balance,
                None => 0,
            },
            style: match style {
                Some(style) => style,
                None => String::from_str(alloc, "plain")?,
            },
            active: match active {
                Some(active) => active,
                None => true,
            },
            note: match note {
                Some(note) => note,
                None => None,
            },
        })
    }
}

impl<S: InputStr> DeserializeFrom<S> for Account {
    ghost datum = { λ v. struct_datum ⟦<AccountBuilder as Builder<S>>⟧.shape (⟦<AccountBuilder as Builder<S>>⟧.values v) };

    ghost from_tree = { spec_read_struct ⟦<AccountBuilder as Builder<S>>⟧.shape };

    fn deserialize<T: Tokens<S>>(alloc: Global, tokens: &mut T) -> Result<Account> {
        read_struct::<S, AccountBuilder, T>(alloc, tokens)
    }

    fn try_deserialize<T: Tokens<S>>(alloc: Global, tokens: &mut T) -> Result<Option<Account>> {
        try_read_struct::<S, AccountBuilder, T>(alloc, tokens)
    }
}

impl Serialize for Account {
    ghost datum = { ⟦<Account as DeserializeFrom<&'static str>>⟧.datum };

    fn serialize<E: Events>(&self, out: &mut E) -> Result<()> {
        let fields = (
            Field {
                name: "owner",
                value: &self.owner,
            },
            (
                Field {
                    name: "balance-cents",
                    value: &self.balance,
                },
                (
                    Field {
                        name: "style",
                        value: &self.style,
                    },
                    (
                        Field {
                            name: "active",
                            value: &self.active,
                        },
                        Field {
                            name: "note",
                            value: &self.note,
                        },
                    ),
                ),
            ),
        );
        serialize_fields(&fields, out)
    }

    fn key<'k>(&'k self, room: &'k mut KeyRoom) -> Option<&'k str> {
        let _ = room;
        None
    }
}

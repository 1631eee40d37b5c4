// Written by tools/make/derive from the structs of the file above: edit those and run it again.
ghost use Rattle.std.specs.Prelude.{[], ◌∷◌, codes, false, true};
ghost use Rattle.json_derive.specs.Datum.{list_data, null_datum};
ghost use Rattle.json_derive.specs.Fields.{field_datum, or_default, read_struct as spec_read_struct, required as needed, struct_datum};
ghost use Rattle.json_explain.specs.Refused.{field_reading, object_refused, struct_reading};

use super::Drawing;
use json_derive::{
    Builder, DeserializeFrom, Events, Field, InputStr, KeyRoom, Result, Serialize, Tokens,
    read_struct, required, serialize_fields, try_read_struct,
};
use json_explain::{Explain, ExplainMembers, Piece, Refusal, explain_members};
use std::alloc::Global;

// What was read of the members of `Drawing` so far.
#[derive(Drop)]
struct DrawingBuilder {
    size: Option<(u16, u16)>,
    pixels: Option<Vec<(u16, u16, u8, u8, u8)>>,
    title: Option<Option<(String, bool, char)>>,
}

impl<S: InputStr> Builder<S> for DrawingBuilder {
    type Built = Drawing;

    ghost shape = { record {
      fields = needed (codes "size") ⟦<(u16, u16) as DeserializeFrom<S>>⟧.from_tree
          ∷ needed (codes "pixels") ⟦<Vec<(u16, u16, u8, u8, u8)> as DeserializeFrom<S>>⟧.from_tree
          ∷ or_default (codes "title") ⟦<Option<(String, bool, char)> as DeserializeFrom<S>>⟧.from_tree (null_datum)
          ∷ [];
      strict = false;
    } };

    ghost so_far = { λ b. list_data (field_datum ⟦<(u16, u16) as DeserializeFrom<S>>⟧.datum b.size
        ∷ field_datum ⟦<Vec<(u16, u16, u8, u8, u8)> as DeserializeFrom<S>>⟧.datum b.pixels
        ∷ field_datum ⟦<Option<(String, bool, char)> as DeserializeFrom<S>>⟧.datum b.title
        ∷ []) };

    ghost values = { λ v. ⟦<(u16, u16) as DeserializeFrom<S>>⟧.datum v.size
        ∷ ⟦<Vec<(u16, u16, u8, u8, u8)> as DeserializeFrom<S>>⟧.datum v.pixels
        ∷ ⟦<Option<(String, bool, char)> as DeserializeFrom<S>>⟧.datum v.title
        ∷ [] };

    fn new() -> Self {
        DrawingBuilder {
            size: None,
            pixels: None,
            title: None,
        }
    }

    fn member<T: Tokens<S>>(&mut self, alloc: Global, name: &str, tokens: &mut T) -> Result<()> {
        match name {
            "size" => {
                let value = <(u16, u16) as DeserializeFrom<S>>::deserialize(alloc, tokens)?;
                self.size = Some(value);
            }
            "pixels" => {
                let value = <Vec<(u16, u16, u8, u8, u8)> as DeserializeFrom<S>>::deserialize(
                    alloc, tokens,
                )?;
                self.pixels = Some(value);
            }
            "title" => {
                let value = <Option<(String, bool, char)> as DeserializeFrom<S>>::deserialize(
                    alloc, tokens,
                )?;
                self.title = Some(value);
            }
            _ => tokens.skip()?,
        }
        Ok(())
    }

    fn build(self, alloc: Global) -> Result<Drawing> {
        let _ = alloc;
        let DrawingBuilder {
            size,
            pixels,
            title,
        } = self;
        Ok(Drawing {
            size: required(size)?,
            pixels: required(pixels)?,
            title: match title {
                Some(title) => title,
                None => None,
            },
        })
    }
}

impl<S: InputStr> DeserializeFrom<S> for Drawing {
    ghost datum = { λ v. struct_datum ⟦<DrawingBuilder as Builder<S>>⟧.shape (⟦<DrawingBuilder as Builder<S>>⟧.values v) };

    ghost from_tree = { spec_read_struct ⟦<DrawingBuilder as Builder<S>>⟧.shape };

    fn deserialize<T: Tokens<S>>(alloc: Global, tokens: &mut T) -> Result<Drawing> {
        read_struct::<S, DrawingBuilder, T>(alloc, tokens)
    }

    fn try_deserialize<T: Tokens<S>>(alloc: Global, tokens: &mut T) -> Result<Option<Drawing>> {
        try_read_struct::<S, DrawingBuilder, T>(alloc, tokens)
    }
}

// Which members of `Drawing` were seen.
#[derive(Drop)]
struct DrawingSeen {
    size: bool,
    pixels: bool,
    title: bool,
}

impl<S: InputStr> ExplainMembers<S> for DrawingSeen {
    ghost reading = { struct_reading false (field_reading (codes "size") ⟦<(u16, u16) as Explain<S>>⟧.refused true
        ∷ field_reading (codes "pixels") ⟦<Vec<(u16, u16, u8, u8, u8)> as Explain<S>>⟧.refused true
        ∷ field_reading (codes "title") ⟦<Option<(String, bool, char)> as Explain<S>>⟧.refused false
        ∷ []) };

    ghost seen = { λ m. m.size ∷ m.pixels ∷ m.title ∷ [] };

    fn member<T: Tokens<S>>(
        &mut self,
        alloc: Global,
        key: &Piece<S>,
        name: &str,
        tokens: &mut T,
    ) -> Result<Option<Refusal>> {
        let _ = key;
        match name {
            "size" => {
                self.size = true;
                <(u16, u16) as Explain<S>>::explain(alloc, tokens)
            }
            "pixels" => {
                self.pixels = true;
                <Vec<(u16, u16, u8, u8, u8)> as Explain<S>>::explain(alloc, tokens)
            }
            "title" => {
                self.title = true;
                <Option<(String, bool, char)> as Explain<S>>::explain(alloc, tokens)
            }
            _ => {
                tokens.skip()?;
                Ok(None)
            }
        }
    }

    fn missing(&self) -> Option<&str> {
        if !self.size {
            return Some("size");
        }
        if !self.pixels {
            return Some("pixels");
        }
        None
    }
}

impl<S: InputStr> Explain<S> for Drawing {
    ghost refused = { object_refused ⟦<DrawingSeen as ExplainMembers<S>>⟧.reading (false ∷ false ∷ false ∷ []) };

    fn explain<T: Tokens<S>>(alloc: Global, tokens: &mut T) -> Result<Option<Refusal>> {
        let mut seen = DrawingSeen {
            size: false,
            pixels: false,
            title: false,
        };
        explain_members(alloc, &mut seen, tokens)
    }
}

impl Serialize for Drawing {
    ghost datum = { ⟦<Drawing as DeserializeFrom<&'static str>>⟧.datum };

    fn serialize<E: Events>(&self, out: &mut E) -> Result<()> {
        let fields = (
            Field {
                name: "size",
                value: &self.size,
            },
            (
                Field {
                    name: "pixels",
                    value: &self.pixels,
                },
                Field {
                    name: "title",
                    value: &self.title,
                },
            ),
        );
        serialize_fields(&fields, out)
    }

    fn key<'k>(&'k self, room: &'k mut KeyRoom) -> Option<&'k str> {
        let _ = room;
        None
    }
}

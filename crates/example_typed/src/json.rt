// Written by tools/make/derive from the structs of the file above: edit those and run it again.
ghost use Rattle.std.specs.Prelude.{[], ◌∷◌, codes, false, pos, true};
ghost use Rattle.mezdruk_json.specs.Datum.{boolean_datum, integer_datum, list_data, null_datum};
ghost use Rattle.mezdruk_json.specs.Fields.{field_datum, or_default, read_struct as spec_read_struct, required as needed, struct_datum};
ghost use Rattle.mezdruk_json.specs.Refused.{field_reading, object_refused, struct_reading};

use super::{Server, Site};
use mezdruk_json::derive::{
    Builder, DeserializeFrom, ErrorCode, Events, Field, InputStr, KeyRoom, Result, Serialize,
    Tokens, error_without_place, read_struct, required, serialize_fields, try_read_struct,
};
use mezdruk_json::explain::{
    Explain, ExplainMembers, Piece, Refusal, explain_key, explain_members,
};
use std::alloc::Global;

// What was read of the members of `Server` so far.
#[derive(Drop)]
struct ServerBuilder {
    host: Option<String>,
    port: Option<u16>,
    years: Option<u8>,
    active: Option<bool>,
    note: Option<Option<String>>,
}

impl<S: InputStr> Builder<S> for ServerBuilder {
    type Built = Server;

    ghost shape = { record {
      fields = needed (codes "host") ⟦<String as DeserializeFrom<S>>⟧.from_tree
          ∷ needed (codes "port") ⟦<u16 as DeserializeFrom<S>>⟧.from_tree
          ∷ or_default (codes "years-running") ⟦<u8 as DeserializeFrom<S>>⟧.from_tree (integer_datum (pos 0))
          ∷ or_default (codes "active") ⟦<bool as DeserializeFrom<S>>⟧.from_tree (boolean_datum true)
          ∷ or_default (codes "note") ⟦<Option<String> as DeserializeFrom<S>>⟧.from_tree (null_datum)
          ∷ [];
      strict = false;
    } };

    ghost so_far = { λ b. list_data (field_datum ⟦<String as DeserializeFrom<S>>⟧.datum b.host
        ∷ field_datum ⟦<u16 as DeserializeFrom<S>>⟧.datum b.port
        ∷ field_datum ⟦<u8 as DeserializeFrom<S>>⟧.datum b.years
        ∷ field_datum ⟦<bool as DeserializeFrom<S>>⟧.datum b.active
        ∷ field_datum ⟦<Option<String> as DeserializeFrom<S>>⟧.datum b.note
        ∷ []) };

    ghost values = { λ v. ⟦<String as DeserializeFrom<S>>⟧.datum v.host
        ∷ ⟦<u16 as DeserializeFrom<S>>⟧.datum v.port
        ∷ ⟦<u8 as DeserializeFrom<S>>⟧.datum v.years
        ∷ ⟦<bool as DeserializeFrom<S>>⟧.datum v.active
        ∷ ⟦<Option<String> as DeserializeFrom<S>>⟧.datum v.note
        ∷ [] };

    fn new() -> Self {
        ServerBuilder {
            host: None,
            port: None,
            years: None,
            active: None,
            note: None,
        }
    }

    fn member<T: Tokens<S>>(&mut self, alloc: Global, name: &str, tokens: &mut T) -> Result<()> {
        match name {
            "host" => {
                let value = <String as DeserializeFrom<S>>::deserialize(alloc, tokens)?;
                self.host = Some(value);
            }
            "port" => {
                let value = <u16 as DeserializeFrom<S>>::deserialize(alloc, tokens)?;
                self.port = Some(value);
            }
            "years-running" => {
                let value = <u8 as DeserializeFrom<S>>::deserialize(alloc, tokens)?;
                self.years = Some(value);
            }
            "active" => {
                let value = <bool as DeserializeFrom<S>>::deserialize(alloc, tokens)?;
                self.active = Some(value);
            }
            "note" => {
                let value = <Option<String> as DeserializeFrom<S>>::deserialize(alloc, tokens)?;
                self.note = Some(value);
            }
            _ => tokens.skip()?,
        }
        Ok(())
    }

    fn build(self, alloc: Global) -> Result<Server> {
        let _ = alloc;
        let ServerBuilder {
            host,
            port,
            years,
            active,
            note,
        } = self;
        Ok(Server {
            host: required(host)?,
            port: required(port)?,
            years: match years {
                Some(years) => years,
                None => 0,
            },
            active: match active {
                Some(active) => active,
                None => true,
            },
            note: match note {
                Some(note) => note,
                None => None,
            },
        })
    }
}

impl<S: InputStr> DeserializeFrom<S> for Server {
    ghost datum = { λ v. struct_datum ⟦<ServerBuilder as Builder<S>>⟧.shape (⟦<ServerBuilder as Builder<S>>⟧.values v) };

    ghost from_tree = { spec_read_struct ⟦<ServerBuilder as Builder<S>>⟧.shape };

    fn deserialize<T: Tokens<S>>(alloc: Global, tokens: &mut T) -> Result<Server> {
        read_struct::<S, ServerBuilder, T>(alloc, tokens)
    }

    fn try_deserialize<T: Tokens<S>>(alloc: Global, tokens: &mut T) -> Result<Option<Server>> {
        try_read_struct::<S, ServerBuilder, T>(alloc, tokens)
    }
}

// Which members of `Server` were seen.
#[derive(Drop)]
struct ServerSeen {
    host: bool,
    port: bool,
    years: bool,
    active: bool,
    note: bool,
}

impl<S: InputStr> ExplainMembers<S> for ServerSeen {
    ghost reading = { struct_reading false (field_reading (codes "host") ⟦<String as Explain<S>>⟧.refused true
        ∷ field_reading (codes "port") ⟦<u16 as Explain<S>>⟧.refused true
        ∷ field_reading (codes "years-running") ⟦<u8 as Explain<S>>⟧.refused false
        ∷ field_reading (codes "active") ⟦<bool as Explain<S>>⟧.refused false
        ∷ field_reading (codes "note") ⟦<Option<String> as Explain<S>>⟧.refused false
        ∷ []) };

    ghost seen = { λ m. m.host ∷ m.port ∷ m.years ∷ m.active ∷ m.note ∷ [] };

    fn member<T: Tokens<S>>(
        &mut self,
        alloc: Global,
        key: &Piece<S>,
        name: &str,
        tokens: &mut T,
    ) -> Result<Option<Refusal>> {
        let _ = key;
        match name {
            "host" => {
                self.host = true;
                <String as Explain<S>>::explain(alloc, tokens)
            }
            "port" => {
                self.port = true;
                <u16 as Explain<S>>::explain(alloc, tokens)
            }
            "years-running" => {
                self.years = true;
                <u8 as Explain<S>>::explain(alloc, tokens)
            }
            "active" => {
                self.active = true;
                <bool as Explain<S>>::explain(alloc, tokens)
            }
            "note" => {
                self.note = true;
                <Option<String> as Explain<S>>::explain(alloc, tokens)
            }
            _ => {
                tokens.skip()?;
                Ok(None)
            }
        }
    }

    fn missing(&self) -> Option<&str> {
        if !self.host {
            return Some("host");
        }
        if !self.port {
            return Some("port");
        }
        None
    }
}

impl<S: InputStr> Explain<S> for Server {
    ghost refused = { object_refused ⟦<ServerSeen as ExplainMembers<S>>⟧.reading (false ∷ false ∷ false ∷ false ∷ false ∷ []) };

    fn explain<T: Tokens<S>>(alloc: Global, tokens: &mut T) -> Result<Option<Refusal>> {
        let mut seen = ServerSeen {
            host: false,
            port: false,
            years: false,
            active: false,
            note: false,
        };
        explain_members(alloc, &mut seen, tokens)
    }
}

impl Serialize for Server {
    ghost datum = { ⟦<Server as DeserializeFrom<&'static str>>⟧.datum };

    fn serialize<E: Events>(&self, out: &mut E) -> Result<()> {
        let fields = (
            Field {
                name: "host",
                value: &self.host,
            },
            (
                Field {
                    name: "port",
                    value: &self.port,
                },
                (
                    Field {
                        name: "years-running",
                        value: &self.years,
                    },
                    (
                        Field {
                            name: "active",
                            value: &self.active,
                        },
                        Field {
                            name: "note",
                            value: &self.note,
                        },
                    ),
                ),
            ),
        );
        serialize_fields(&fields, out)
    }

    fn key<'k>(&'k self, room: &'k mut KeyRoom) -> Option<&'k str> {
        let _ = room;
        None
    }
}

// What was read of the members of `Site` so far.
#[derive(Drop)]
struct SiteBuilder {
    name: Option<String>,
    servers: Option<Vec<Server>>,
}

impl<S: InputStr> Builder<S> for SiteBuilder {
    type Built = Site;

    ghost shape = { record {
      fields = needed (codes "name") ⟦<String as DeserializeFrom<S>>⟧.from_tree
          ∷ needed (codes "servers") ⟦<Vec<Server> as DeserializeFrom<S>>⟧.from_tree
          ∷ [];
      strict = true;
    } };

    ghost so_far = { λ b. list_data (field_datum ⟦<String as DeserializeFrom<S>>⟧.datum b.name
        ∷ field_datum ⟦<Vec<Server> as DeserializeFrom<S>>⟧.datum b.servers
        ∷ []) };

    ghost values = { λ v. ⟦<String as DeserializeFrom<S>>⟧.datum v.name
        ∷ ⟦<Vec<Server> as DeserializeFrom<S>>⟧.datum v.servers
        ∷ [] };

    fn new() -> Self {
        SiteBuilder {
            name: None,
            servers: None,
        }
    }

    fn member<T: Tokens<S>>(&mut self, alloc: Global, name: &str, tokens: &mut T) -> Result<()> {
        match name {
            "name" => {
                let value = <String as DeserializeFrom<S>>::deserialize(alloc, tokens)?;
                self.name = Some(value);
            }
            "servers" => {
                let value = <Vec<Server> as DeserializeFrom<S>>::deserialize(alloc, tokens)?;
                self.servers = Some(value);
            }
            _ => {
                tokens.skip()?;
                return Err(error_without_place(ErrorCode::TypeUnmatched));
            }
        }
        Ok(())
    }

    fn build(self, alloc: Global) -> Result<Site> {
        let _ = alloc;
        let SiteBuilder { name, servers } = self;
        Ok(Site {
            name: required(name)?,
            servers: required(servers)?,
        })
    }
}

impl<S: InputStr> DeserializeFrom<S> for Site {
    ghost datum = { λ v. struct_datum ⟦<SiteBuilder as Builder<S>>⟧.shape (⟦<SiteBuilder as Builder<S>>⟧.values v) };

    ghost from_tree = { spec_read_struct ⟦<SiteBuilder as Builder<S>>⟧.shape };

    fn deserialize<T: Tokens<S>>(alloc: Global, tokens: &mut T) -> Result<Site> {
        read_struct::<S, SiteBuilder, T>(alloc, tokens)
    }

    fn try_deserialize<T: Tokens<S>>(alloc: Global, tokens: &mut T) -> Result<Option<Site>> {
        try_read_struct::<S, SiteBuilder, T>(alloc, tokens)
    }
}

// Which members of `Site` were seen.
#[derive(Drop)]
struct SiteSeen {
    name: bool,
    servers: bool,
}

impl<S: InputStr> ExplainMembers<S> for SiteSeen {
    ghost reading = { struct_reading true (field_reading (codes "name") ⟦<String as Explain<S>>⟧.refused true
        ∷ field_reading (codes "servers") ⟦<Vec<Server> as Explain<S>>⟧.refused true
        ∷ []) };

    ghost seen = { λ m. m.name ∷ m.servers ∷ [] };

    fn member<T: Tokens<S>>(
        &mut self,
        alloc: Global,
        key: &Piece<S>,
        name: &str,
        tokens: &mut T,
    ) -> Result<Option<Refusal>> {
        let _ = key;
        match name {
            "name" => {
                self.name = true;
                <String as Explain<S>>::explain(alloc, tokens)
            }
            "servers" => {
                self.servers = true;
                <Vec<Server> as Explain<S>>::explain(alloc, tokens)
            }
            _ => explain_key(alloc, tokens, ErrorCode::TypeUnmatched),
        }
    }

    fn missing(&self) -> Option<&str> {
        if !self.name {
            return Some("name");
        }
        if !self.servers {
            return Some("servers");
        }
        None
    }
}

impl<S: InputStr> Explain<S> for Site {
    ghost refused = { object_refused ⟦<SiteSeen as ExplainMembers<S>>⟧.reading (false ∷ false ∷ []) };

    fn explain<T: Tokens<S>>(alloc: Global, tokens: &mut T) -> Result<Option<Refusal>> {
        let mut seen = SiteSeen {
            name: false,
            servers: false,
        };
        explain_members(alloc, &mut seen, tokens)
    }
}

impl Serialize for Site {
    ghost datum = { ⟦<Site as DeserializeFrom<&'static str>>⟧.datum };

    fn serialize<E: Events>(&self, out: &mut E) -> Result<()> {
        let fields = (
            Field {
                name: "name",
                value: &self.name,
            },
            Field {
                name: "servers",
                value: &self.servers,
            },
        );
        serialize_fields(&fields, out)
    }

    fn key<'k>(&'k self, room: &'k mut KeyRoom) -> Option<&'k str> {
        let _ = room;
        None
    }
}

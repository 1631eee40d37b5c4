// Written by tools/make/derive from the structs of the file above: edit those and run it again.
ghost use Rattle.std.specs.Prelude.{[], ◌∷◌, codes, false, true};
ghost use Rattle.json_derive.specs.Datum.{list_data, list_datum, no_data, no_rows, rows_datum};
ghost use Rattle.json_derive.specs.Fields.{field_datum, or_default, read_struct as spec_read_struct, required as needed, struct_datum};
ghost use Rattle.json_explain.specs.Refused.{field_reading, object_refused, struct_reading};

use super::{BTreeMap, Config, Server};
use json_derive::{
    Builder, DeserializeFrom, ErrorCode, Events, Field, InputStr, KeyRoom, Result, Serialize,
    Tokens, error_without_place, read_struct, required, serialize_fields, try_read_struct,
};
use json_explain::{Explain, ExplainMembers, Piece, Refusal, explain_key, explain_members};
use std::alloc::Global;

// What was read of the members of `Server` so far.
#[derive(Drop)]
struct ServerBuilder {
    host: Option<String>,
    port: Option<u16>,
}

impl<S: InputStr> Builder<S> for ServerBuilder {
    type Built = Server;

    ghost shape = { record {
      fields = needed (codes "host") ⟦<String as DeserializeFrom<S>>⟧.from_tree
          ∷ needed (codes "port") ⟦<u16 as DeserializeFrom<S>>⟧.from_tree
          ∷ [];
      strict = false;
    } };

    ghost so_far = { λ b. list_data (field_datum ⟦<String as DeserializeFrom<S>>⟧.datum b.host
        ∷ field_datum ⟦<u16 as DeserializeFrom<S>>⟧.datum b.port
        ∷ []) };

    ghost values = { λ v. ⟦<String as DeserializeFrom<S>>⟧.datum v.host
        ∷ ⟦<u16 as DeserializeFrom<S>>⟧.datum v.port
        ∷ [] };

    fn new() -> Self {
        ServerBuilder {
            host: None,
            port: None,
        }
    }

    fn member<T: Tokens<S>>(&mut self, alloc: Global, name: &str, tokens: &mut T) -> Result<()> {
        match name {
            "host" => {
                let value = <String as DeserializeFrom<S>>::deserialize(alloc, tokens)?;
                self.host = Some(value);
            }
            "port" => {
                let value = <u16 as DeserializeFrom<S>>::deserialize(alloc, tokens)?;
                self.port = Some(value);
            }
            _ => tokens.skip()?,
        }
        Ok(())
    }

    fn build(self, alloc: Global) -> Result<Server> {
        let _ = alloc;
        let ServerBuilder { host, port } = self;
        Ok(Server {
            host: required(host)?,
            port: required(port)?,
        })
    }
}

impl<S: InputStr> DeserializeFrom<S> for Server {
    ghost datum = { λ v. struct_datum ⟦<ServerBuilder as Builder<S>>⟧.shape (⟦<ServerBuilder as Builder<S>>⟧.values v) };

    ghost from_tree = { spec_read_struct ⟦<ServerBuilder as Builder<S>>⟧.shape };

    fn deserialize<T: Tokens<S>>(alloc: Global, tokens: &mut T) -> Result<Server> {
        read_struct::<S, ServerBuilder, T>(alloc, tokens)
    }

    fn try_deserialize<T: Tokens<S>>(alloc: Global, tokens: &mut T) -> Result<Option<Server>> {
        try_read_struct::<S, ServerBuilder, T>(alloc, tokens)
    }
}

// Which members of `Server` were seen.
#[derive(Drop)]
struct ServerSeen {
    host: bool,
    port: bool,
}

impl<S: InputStr> ExplainMembers<S> for ServerSeen {
    ghost reading = { struct_reading false (field_reading (codes "host") ⟦<String as Explain<S>>⟧.refused true
        ∷ field_reading (codes "port") ⟦<u16 as Explain<S>>⟧.refused true
        ∷ []) };

    ghost seen = { λ m. m.host ∷ m.port ∷ [] };

    fn member<T: Tokens<S>>(
        &mut self,
        alloc: Global,
        key: &Piece<S>,
        name: &str,
        tokens: &mut T,
    ) -> Result<Option<Refusal>> {
        let _ = key;
        match name {
            "host" => {
                self.host = true;
                <String as Explain<S>>::explain(alloc, tokens)
            }
            "port" => {
                self.port = true;
                <u16 as Explain<S>>::explain(alloc, tokens)
            }
            _ => {
                tokens.skip()?;
                Ok(None)
            }
        }
    }

    fn missing(&self) -> Option<&str> {
        if !self.host {
            return Some("host");
        }
        if !self.port {
            return Some("port");
        }
        None
    }
}

impl<S: InputStr> Explain<S> for Server {
    ghost refused = { object_refused ⟦<ServerSeen as ExplainMembers<S>>⟧.reading (false ∷ false ∷ []) };

    fn explain<T: Tokens<S>>(alloc: Global, tokens: &mut T) -> Result<Option<Refusal>> {
        let mut seen = ServerSeen {
            host: false,
            port: false,
        };
        explain_members(alloc, &mut seen, tokens)
    }
}

impl Serialize for Server {
    ghost datum = { ⟦<Server as DeserializeFrom<&'static str>>⟧.datum };

    fn serialize<E: Events>(&self, out: &mut E) -> Result<()> {
        let fields = (
            Field {
                name: "host",
                value: &self.host,
            },
            Field {
                name: "port",
                value: &self.port,
            },
        );
        serialize_fields(&fields, out)
    }

    fn key<'k>(&'k self, room: &'k mut KeyRoom) -> Option<&'k str> {
        let _ = room;
        None
    }
}

// What was read of the members of `Config` so far.
#[derive(Drop)]
struct ConfigBuilder {
    servers: Option<Vec<Server>>,
    names: Option<BTreeMap<u16, String>>,
    waits: Option<Vec<Option<u32>>>,
}

impl<S: InputStr> Builder<S> for ConfigBuilder {
    type Built = Config;

    ghost shape = { record {
      fields = needed (codes "servers") ⟦<Vec<Server> as DeserializeFrom<S>>⟧.from_tree
          ∷ or_default (codes "names") ⟦<BTreeMap<u16, String> as DeserializeFrom<S>>⟧.from_tree (rows_datum no_rows)
          ∷ or_default (codes "waits") ⟦<Vec<Option<u32>> as DeserializeFrom<S>>⟧.from_tree (list_datum no_data)
          ∷ [];
      strict = true;
    } };

    ghost so_far = { λ b. list_data (field_datum ⟦<Vec<Server> as DeserializeFrom<S>>⟧.datum b.servers
        ∷ field_datum ⟦<BTreeMap<u16, String> as DeserializeFrom<S>>⟧.datum b.names
        ∷ field_datum ⟦<Vec<Option<u32>> as DeserializeFrom<S>>⟧.datum b.waits
        ∷ []) };

    ghost values = { λ v. ⟦<Vec<Server> as DeserializeFrom<S>>⟧.datum v.servers
        ∷ ⟦<BTreeMap<u16, String> as DeserializeFrom<S>>⟧.datum v.names
        ∷ ⟦<Vec<Option<u32>> as DeserializeFrom<S>>⟧.datum v.waits
        ∷ [] };

    fn new() -> Self {
        ConfigBuilder {
            servers: None,
            names: None,
            waits: None,
        }
    }

    fn member<T: Tokens<S>>(&mut self, alloc: Global, name: &str, tokens: &mut T) -> Result<()> {
        match name {
            "servers" => {
                let value = <Vec<Server> as DeserializeFrom<S>>::deserialize(alloc, tokens)?;
                self.servers = Some(value);
            }
            "names" => {
                let value = <BTreeMap<u16, String> as DeserializeFrom<S>>::deserialize(
                    alloc, tokens,
                )?;
                self.names = Some(value);
            }
            "waits" => {
                let value = <Vec<Option<u32>> as DeserializeFrom<S>>::deserialize(alloc, tokens)?;
                self.waits = Some(value);
            }
            _ => {
                tokens.skip()?;
                return Err(error_without_place(ErrorCode::TypeUnmatched));
            }
        }
        Ok(())
    }

    fn build(self, alloc: Global) -> Result<Config> {
        let ConfigBuilder {
            servers,
            names,
            waits,
        } = self;
        Ok(Config {
            servers: required(servers)?,
            names: match names {
                Some(names) => names,
                None => BTreeMap::new(alloc),
            },
            waits: match waits {
                Some(waits) => waits,
                None => Vec::new(alloc),
            },
        })
    }
}

impl<S: InputStr> DeserializeFrom<S> for Config {
    ghost datum = { λ v. struct_datum ⟦<ConfigBuilder as Builder<S>>⟧.shape (⟦<ConfigBuilder as Builder<S>>⟧.values v) };

    ghost from_tree = { spec_read_struct ⟦<ConfigBuilder as Builder<S>>⟧.shape };

    fn deserialize<T: Tokens<S>>(alloc: Global, tokens: &mut T) -> Result<Config> {
        read_struct::<S, ConfigBuilder, T>(alloc, tokens)
    }

    fn try_deserialize<T: Tokens<S>>(alloc: Global, tokens: &mut T) -> Result<Option<Config>> {
        try_read_struct::<S, ConfigBuilder, T>(alloc, tokens)
    }
}

// Which members of `Config` were seen.
#[derive(Drop)]
struct ConfigSeen {
    servers: bool,
    names: bool,
    waits: bool,
}

impl<S: InputStr> ExplainMembers<S> for ConfigSeen {
    ghost reading = { struct_reading true (field_reading (codes "servers") ⟦<Vec<Server> as Explain<S>>⟧.refused true
        ∷ field_reading (codes "names") ⟦<BTreeMap<u16, String> as Explain<S>>⟧.refused false
        ∷ field_reading (codes "waits") ⟦<Vec<Option<u32>> as Explain<S>>⟧.refused false
        ∷ []) };

    ghost seen = { λ m. m.servers ∷ m.names ∷ m.waits ∷ [] };

    fn member<T: Tokens<S>>(
        &mut self,
        alloc: Global,
        key: &Piece<S>,
        name: &str,
        tokens: &mut T,
    ) -> Result<Option<Refusal>> {
        let _ = key;
        match name {
            "servers" => {
                self.servers = true;
                <Vec<Server> as Explain<S>>::explain(alloc, tokens)
            }
            "names" => {
                self.names = true;
                <BTreeMap<u16, String> as Explain<S>>::explain(alloc, tokens)
            }
            "waits" => {
                self.waits = true;
                <Vec<Option<u32>> as Explain<S>>::explain(alloc, tokens)
            }
            _ => explain_key(alloc, tokens, ErrorCode::TypeUnmatched),
        }
    }

    fn missing(&self) -> Option<&str> {
        if !self.servers {
            return Some("servers");
        }
        None
    }
}

impl<S: InputStr> Explain<S> for Config {
    ghost refused = { object_refused ⟦<ConfigSeen as ExplainMembers<S>>⟧.reading (false ∷ false ∷ false ∷ []) };

    fn explain<T: Tokens<S>>(alloc: Global, tokens: &mut T) -> Result<Option<Refusal>> {
        let mut seen = ConfigSeen {
            servers: false,
            names: false,
            waits: false,
        };
        explain_members(alloc, &mut seen, tokens)
    }
}

impl Serialize for Config {
    ghost datum = { ⟦<Config as DeserializeFrom<&'static str>>⟧.datum };

    fn serialize<E: Events>(&self, out: &mut E) -> Result<()> {
        let fields = (
            Field {
                name: "servers",
                value: &self.servers,
            },
            (
                Field {
                    name: "names",
                    value: &self.names,
                },
                Field {
                    name: "waits",
                    value: &self.waits,
                },
            ),
        );
        serialize_fields(&fields, out)
    }

    fn key<'k>(&'k self, room: &'k mut KeyRoom) -> Option<&'k str> {
        let _ = room;
        None
    }
}

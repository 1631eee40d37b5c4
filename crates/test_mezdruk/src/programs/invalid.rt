// Arguments that are not valid, each list with all of standard error.

/// Worked examples of the programs that `mezdruk` runs too, as `json_command::rows` reads them.
pub const INVALID_ROWS: &str = r#"# an option that there is not
|2||BadWords%0Areshape: there is no option `--prety`; did you mean `--pretty`?%0ARun `reshape --help` for usage.|reshape|--prety|
|2||BadWords%0Areshape: there is no option `--sort-kyes=1`; did you mean `--sort-keys`?%0ARun `reshape --help` for usage.|reshape|--sort-kyes=1|
|2||BadWords%0Areshape: there is no option `--colour`%0ARun `reshape --help` for usage.|reshape|--colour|
|2||BadWords%0Areshape: there is no option `--`%0ARun `reshape --help` for usage.|reshape|--|
|2||BadWords%0Areshape: there is no option `-i`%0ARun `reshape --help` for usage.|reshape|-i|
|2||BadWords%0Areshape: there is no option `--prety`; did you mean `--pretty`?%0ARun `reshape --help` for usage.|reshape|--tabs|--prety|pkg.json|
|2||BadWords%0Areshape: argument 1: there is no such option%0ARun `reshape --help` for usage.|reshape|-«80 x»|
# another value
|2||BadWords%0Areshape: `--indent=9`: the option takes a number from 0 to 8%0ARun `reshape --help` for usage.|reshape|--indent=9|
|2||BadWords%0Areshape: `--indent`: the option takes a number from 0 to 8%0ARun `reshape --help` for usage.|reshape|--indent|
|2||BadWords%0Areshape: `--depth=03`: the option takes a number from 0 to 1024 without leading zeros%0ARun `reshape --help` for usage.|reshape|--depth=03|
|2||BadWords%0Areshape: `--make=100001`: the option takes a number from 0 to 100000 without leading zeros%0ARun `reshape --help` for usage.|reshape|--make=100001|
|2||BadWords%0Areshape: `--tabs=1`: the option takes no value%0ARun `reshape --help` for usage.|reshape|--tabs=1|
# an argument that excludes another one
|2||BadWords%0Areshape: `--tabs` does not go with `--pretty`%0ARun `reshape --help` for usage.|reshape|--pretty|[]|--tabs|
|2||BadWords%0Areshape: `--depth=4`: the option occurs twice%0ARun `reshape --help` for usage.|reshape|--depth=3|--depth=4|
|2||BadWords%0Areshape: `--pretty` does not go with `--make`%0ARun `reshape --help` for usage.|reshape|--make=1|--pretty|
|2||BadWords%0Areshape: `[]` does not go with `--make`%0ARun `reshape --help` for usage.|reshape|--make=1|[]|
|2||BadWords%0Areshape: `--version` does not go with `--tabs`%0ARun `reshape --help` for usage.|reshape|--tabs|--version|
|2||BadWords%0Areshape: `--version`: the option occurs twice%0ARun `reshape --help` for usage.|reshape|--version|--version|
|2||BadWords%0Areshape: `-h`: the option is given alone%0ARun `reshape --help` for usage.|reshape|[]|-h|
# the name of a file
|2||BadWords%0Areshape: `pkg.json`: EDITS is no JSON text: InvalidJsonValue at offset 0, line 1 column 1%0Ahint: input is read from standard input, as in `reshape < FILE`%0ARun `reshape --help` for usage.|reshape|pkg.json|
|2||BadWords%0Areshape: `b.json`: at most one EDITS is taken%0Ahint: input is read from standard input, as in `reshape < FILE`%0ARun `reshape --help` for usage.|reshape|[]|b.json|
|2||BadWords%0Areshape: `lines`: EDITS is no JSON text: InvalidJsonValue at offset 0, line 1 column 1%0Ahint: input is read from standard input, as in `reshape < FILE`%0ARun `reshape --help` for usage.|reshape|lines|[]|
# edits of another form
|2||BadWords%0Areshape: `[["set"`: EDITS is no JSON text: EofWhileParsing at offset 7, line 1 column 8%0ARun `reshape --help` for usage.|reshape|[["set"|
|2||BadWords%0Areshape: argument 2: EDITS is no JSON text: EofWhileParsing at offset 81, line 1 column 82%0ARun `reshape --help` for usage.|reshape|--tabs|«81 [»|
|2||BadWords%0Areshape: `{}`: EDITS is no array of edits%0ARun `reshape --help` for usage.|reshape|{}|
|2||BadWords%0Areshape: `[3]`: element 0 of EDITS is no edit: it is no array%0ARun `reshape --help` for usage.|reshape|[3]|
|2||BadWords%0Areshape: `[[]]`: element 0 of EDITS is no edit: it does not begin with a name%0ARun `reshape --help` for usage.|reshape|[[]]|
|2||BadWords%0Areshape: `[["push",[],1],["sett",[],1]]`: element 1 of EDITS is no edit: its name is none of set, insert, push and remove%0ARun `reshape --help` for usage.|reshape|--tabs|[["push",[],1],["sett",[],1]]|
|2||BadWords%0Areshape: `[["remove",[]]]`: element 0 of EDITS is no edit: it is not ["remove", path, step]%0ARun `reshape --help` for usage.|reshape|[["remove",[]]]|
|2||BadWords%0Areshape: `[["set","version",1]]`: element 0 of EDITS is no edit: its path is no array of steps%0ARun `reshape --help` for usage.|reshape|[["set","version",1]]|
|2||BadWords%0Areshape: `[["set",[4294967296],1]]`: element 0 of EDITS is no edit: its path is no array of steps%0ARun `reshape --help` for usage.|reshape|[["set",[4294967296],1]]|
|2||BadWords%0Areshape: `[["insert",[],1,2]]`: element 0 of EDITS is no edit: its key is no string%0ARun `reshape --help` for usage.|reshape|[["insert",[],1,2]]|
|2||BadWords%0Areshape: `[["remove",[],-1]]`: element 0 of EDITS is no edit: its step is no string and no index%0ARun `reshape --help` for usage.|reshape|[["remove",[],-1]]|
# lines
|2||BadWords%0Amezdruk lines: COLUMNS is missing%0ARun `mezdruk lines --help` for usage.|lines|
|2||BadWords%0Amezdruk lines: COLUMNS is missing%0ARun `mezdruk lines --help` for usage.|lines|--has=[]|
|2||BadWords%0Amezdruk lines: there is no option `--`%0ARun `mezdruk lines --help` for usage.|lines|--|[[["a"],"int"]]|
|2||BadWords%0Amezdruk lines: `a`: COLUMNS is no JSON text: InvalidJsonValue at offset 0, line 1 column 1%0Ahint: input is read from standard input, as in `mezdruk lines < FILE`%0ARun `mezdruk lines --help` for usage.|lines|a|
|2||BadWords%0Amezdruk lines: `--has`: the option takes a JSON text%0ARun `mezdruk lines --help` for usage.|lines|--has|[[[],"json"]]|
|2||BadWords%0Amezdruk lines: `--has=a`: PATH is no JSON text: InvalidJsonValue at offset 0, line 1 column 1%0ARun `mezdruk lines --help` for usage.|lines|--has=a|[[[],"json"]]|
|2||BadWords%0Amezdruk lines: `--has={}`: PATH is no array of steps%0ARun `mezdruk lines --help` for usage.|lines|--has={}|[[[],"json"]]|
|2||BadWords%0Amezdruk lines: `--has=["a",true]`: step 1 of PATH is no string and no index%0ARun `mezdruk lines --help` for usage.|lines|--has=["a",true]|[[[],"json"]]|
|2||BadWords%0Amezdruk lines: `--has=[]`: the option occurs twice%0ARun `mezdruk lines --help` for usage.|lines|--has=[]|--has=[]|
|2||BadWords%0Amezdruk lines: `--csv`: the option occurs twice%0ARun `mezdruk lines --help` for usage.|lines|--csv|--strict|--csv|[[[],"json"]]|
|2||BadWords%0Amezdruk lines: `--strict=1`: the option takes no value%0ARun `mezdruk lines --help` for usage.|lines|--strict=1|[[[],"json"]]|
|2||BadWords%0Amezdruk lines: there is no option `--cvs`; did you mean `--csv`?%0ARun `mezdruk lines --help` for usage.|lines|--cvs|[[[],"json"]]|
|2||BadWords%0Amezdruk lines: `[]`: COLUMNS is no array of 1 to 64 columns%0ARun `mezdruk lines --help` for usage.|lines|[]|
|2||BadWords%0Amezdruk lines: `["id","int"]`: element 0 of COLUMNS is no column: it is no array%0ARun `mezdruk lines --help` for usage.|lines|["id","int"]|
|2||BadWords%0Amezdruk lines: `[[["id"]]]`: element 0 of COLUMNS is no column: it is not [path, kind]%0ARun `mezdruk lines --help` for usage.|lines|[[["id"]]]|
|2||BadWords%0Amezdruk lines: `[["id","int"]]`: element 0 of COLUMNS is no column: its path is no array of steps%0ARun `mezdruk lines --help` for usage.|lines|[["id","int"]]|
|2||BadWords%0Amezdruk lines: `[[["id"],"number"]]`: element 0 of COLUMNS is no column: its kind is none of text, int, bool and json%0ARun `mezdruk lines --help` for usage.|lines|[[["id"],"number"]]|
# rpc
|2||BadWords%0Amezdruk rpc: there is no option `--pretty`%0ARun `mezdruk rpc --help` for usage.|rpc|--pretty|
|2||BadWords%0Amezdruk rpc: there is no option `--port`%0ARun `mezdruk rpc --help` for usage.|rpc|--port|80|
|2||BadWords%0Amezdruk rpc: `a.json`: no operand is taken%0Ahint: input is read from standard input, as in `mezdruk rpc < FILE`%0ARun `mezdruk rpc --help` for usage.|rpc|a.json|
|2||BadWords%0Amezdruk rpc: `--version` does not go with `--help`%0ARun `mezdruk rpc --help` for usage.|rpc|--help|--version|
# history
|2||BadWords%0Amezdruk history: CALLS is missing%0ARun `mezdruk history --help` for usage.|history|
|2||BadWords%0Amezdruk history: `a.json`: at most one CALLS is taken%0Ahint: input is read from standard input, as in `mezdruk history < FILE`%0ARun `mezdruk history --help` for usage.|history|[]|a.json|
|2||BadWords%0Amezdruk history: `"undo"`: CALLS is no array of edits, ["undo"] and ["redo"]%0ARun `mezdruk history --help` for usage.|history|"undo"|
|2||BadWords%0Amezdruk history: `[["undo"],["undoo"]]`: element 1 of CALLS is no edit, undo or redo: its name is none of set, insert, push and remove%0ARun `mezdruk history --help` for usage.|history|[["undo"],["undoo"]]|
"#;

/// Worked examples of `json_patch`.
pub const JSON_PATCH_ROWS: &str = r#"# the version
|0|json_patch 0.1.0%0ARattle logic dac8208d650f15bf%0A||-V|
# invalid arguments
|2||BadWords%0Ajson_patch: --patch=PATCH or --merge=PATCH is missing%0ARun `json_patch --help` for usage.|
|2||BadWords%0Ajson_patch: there is no option `--pach=[]`; did you mean `--patch`?%0ARun `json_patch --help` for usage.|--pach=[]|
|2||BadWords%0Ajson_patch: `--patch`: the option takes a JSON text%0ARun `json_patch --help` for usage.|--patch|
|2||BadWords%0Ajson_patch: `--patch=`: PATCH is no JSON text: EofWhileParsing at offset 0, line 1 column 1%0ARun `json_patch --help` for usage.|--patch=|
|2||BadWords%0Ajson_patch: `--merge={}` does not go with `--patch`%0ARun `json_patch --help` for usage.|--patch=[]|--merge={}|
|2||BadWords%0Ajson_patch: `a.json`: no operand is taken%0Ahint: input is read from standard input, as in `json_patch < FILE`%0ARun `json_patch --help` for usage.|--patch=[]|a.json|
"#;

// Arguments with what is reported of them.

/// Worked examples, as `json_command::rows` reads them: an empty input, the status, an empty
/// output, the report, and the arguments, each closed by `|`.
pub const ROWS: &str = r#"# valid
|0|||fmt|
|0|||fmt|--|--pretty|
|0|||fmt|a.json|--indent=8|b.json|--sort-keys|-i|
|0|||check|--lines|a.jsonl|--unique-keys|--depth=0|
|0|||get||
|0|||get|/a/b|--raw|-|
|0|||get|["a",0]|--stream|a.json|
|0|||edit|[]|-|
|0|||edit|--edits=e.json|a.json|b.json|
|0|||set|[]|-1|
|0|||set|/a/0|true|a.json|
|0|||set|/a~1b/m~0n|true|
|0|||set||null|
|0|||set| ["a"]|1|
|0|||set|/name|--string|Ada|a.json|
|0|||set|--string|/name|-|
|0|||set|/name|--string||
|0|||insert|/a|"b"|--string|c|
|0|||push|/a|1|
|0|||remove|/a|0|
|0|||get|-r|/a|
|0|||fmt|-c|-S|
|0|||get|/a|--path=/b|--path=["c",0]|a.json|
|0|||get|--path=/a|a.json|--path=/b|-r|
|0|||get|--path=[]|
|0|||keys||
|0|||keys|["a"]|--raw|a.json|--lines|
|0|||query|--exit-status|--|$[::-1]|
|0|||fmt|--indent|8|a.json|
|0|||get|--indent|0|/a|
|0|||insert|["a"]|"b"|{"c":1.50}|a.json|
|0|||push|[]|"x"|--tabs|
|0|||remove|["a"]|0|a.json|--in-place|
|0|||patch|[]|a.json|
|0|||merge|{"a":null}|--compact|
|0|||merge|--merge=m.json|
|0|||fmt|-i|--verbose|a.json|
|0|||set|-v|/a|1|a.json|
|0|||overlay|a.json|b.json|-|--pretty|
|0|||overlay|-i|--unique-keys|a.json|b.json|
|0|||diff|a.json|b.json|
|0|||diff|--merge|-|--pretty|-S|
|0|||diff|--unique-keys|a.json|--depth=3|b.json|c.json|
|0|||fmt|--bom|-i|a.json|
|0|||check|--stream|a.json|--bom|
|0|||diff|--bom|a.json|b.json|
|0|||fmt|--color|a.json|
|0|||get|-C|/a|--raw|
|0|||set|-M|/a|1|-i|a.json|
|0|||diff|--color=auto|a.json|b.json|
|0|||length|/a|--color=always|
|0|||overlay|--color=never|a.json|
# the command
|2||mezdruk: there is no command|
|2||mezdruk: there is no command `fmtt`; did you mean `fmt`?|fmtt|
|2||mezdruk: there is no command `mrge`; did you mean `merge`?|mrge|a|
|2||mezdruk: there is no command `del`; did you mean `remove`?|del|/a|
|2||mezdruk: there is no command `delete`; did you mean `remove`?|delete|
|2||mezdruk: there is no command `rm`; did you mean `remove`?|rm|
|2||mezdruk: there is no command `validate`; did you mean `check`?|validate|
|2||mezdruk: there is no command `lint`; did you mean `check`?|lint|
|2||mezdruk: there is no command `format`; did you mean `fmt`?|format|
|2||mezdruk: there is no command `pretty`; did you mean `fmt`?|pretty|
|2||mezdruk: there is no command `print`; did you mean `fmt`?|print|
|2||mezdruk: there is no command `add`; did you mean `push`?|add|
|2||mezdruk: there is no command `append`; did you mean `push`?|append|
|2||mezdruk: there is no command `update`; did you mean `set`?|update|
|2||mezdruk: there is no command `replace`; did you mean `set`?|replace|
|2||mezdruk: there is no command `find`; did you mean `get`?|find|
|2||mezdruk: there is no command `jsonpath`; did you mean `query`?|jsonpath|
|2||mezdruk: there is no command `show`; did you mean `get`?|show|
|2||mezdruk: there is no command `count`; did you mean `length`?|count|
|2||mezdruk: there is no command `overlya`; did you mean `overlay`?|overlya|
|2||mezdruk: there is no command `compare`; did you mean `diff`?|compare|
|2||mezdruk: there is no command `members`; did you mean `keys`?|members|
|2||mezdruk: there is no command `reshap`; did you mean `reshape`?|reshap|
|2||mezdruk: there is no command `histroy`; did you mean `history`?|histroy|[]|
|2||mezdruk: there is no command `package.json`|package.json|
|2||mezdruk: there is no command `--pretty`|--pretty|fmt|
|2||mezdruk: there is no command ``||
# options that are unknown
|2||mezdruk fmt: there is no option `--prety`; did you mean `--pretty`?|fmt|--prety|
|2||mezdruk fmt: there is no option `--sort`|fmt|--sort|
|2||mezdruk fmt: there is no option `--boom`; did you mean `--bom`?|fmt|--boom|
|2||mezdruk fmt: there is no option `--colour`; did you mean `--color`?|fmt|--colour|
|2||mezdruk fmt: `--color=red`: the option takes `auto`, `always` or `never`|fmt|--color=red|
|2||mezdruk fmt: there is no option `-x`|fmt|-x|
|2||mezdruk check: the command has no option `--raw`|check|--raw|
|2||mezdruk check: the command has no option `--compact`|check|--compact|
|2||mezdruk check: the command has no option `--color`|check|--color|
|2||mezdruk get: the command has no option `-i`|get|-i|
|2||mezdruk set: the command has no option `--edits=e.json`|set|--edits=e.json|
|2||mezdruk keys: the command has no option `-i`|keys|-i|
|2||mezdruk get: the command has no option `--verbose`|get|--verbose|
|2||mezdruk length: the command has no option `--raw`|length|--raw|
|2||mezdruk keys: the command has no option `--path=/a`|keys|--path=/a|
|2||mezdruk get: the command has no option `--count`|get|/a|--count|
|2||mezdruk fmt: the command has no option `-e`|fmt|-e|
|2||mezdruk query: the command has no option `-i`|query|$|-i|
|2||mezdruk query: there is no option `--counts`; did you mean `--count`?|query|--counts|
|2||mezdruk diff: the command has no option `-i`|diff|a.json|-i|
|2||mezdruk diff: the command has no option `--lines`|diff|--lines|
|2||mezdruk overlay: the command has no option `--stream`|overlay|--stream|a.json|
|2||mezdruk diff: the command has no option `--merge=m.json`|diff|--merge=m.json|
|2||mezdruk merge: `--merge`: the option takes the name of a file|merge|--merge|
|2||mezdruk get: `--path=`: the option takes a JSON Pointer, as --path=/tags/0, or a JSON array of steps|get|--path=|
|2||mezdruk get: `--path`: the option takes a JSON Pointer, as --path=/tags/0, or a JSON array of steps|get|--path|/a|
|2||mezdruk fmt: `--indent=9`: the option takes a number from 0 to 8|fmt|--indent=9|
|0|||fmt|--indent|4|
|2||mezdruk fmt: `a.json`: --indent takes a number from 0 to 8|fmt|--indent|a.json|
|2||mezdruk fmt: `9`: --indent takes a number from 0 to 8|fmt|--indent|9|
|2||mezdruk fmt: `--`: --indent takes a number from 0 to 8|fmt|--indent|--|
|2||mezdruk fmt: the number after `--indent` is missing|fmt|a.json|--indent|
|2||mezdruk check: the command has no option `--indent`|check|--indent|4|
|2||mezdruk check: the command has no option `-c`|check|-c|
|2||mezdruk fmt: the command has no option `-r`|fmt|-r|
|2||mezdruk get: the command has no option `--string`|get|--string|
|2||mezdruk fmt: `--help` is given alone, or alone after the command|fmt|--pretty|--help|
|2||mezdruk fmt: `-h` is given alone, or alone after the command|fmt|-h|a.json|
|2||mezdruk check: `--depth=01`: the option takes a number from 0 to 1024 without leading zeros|check|--depth=01|
|2||mezdruk check: `--depth=1025`: the option takes a number from 0 to 1024 without leading zeros|check|--depth=1025|
|2||mezdruk edit: `--edits=`: the option takes the name of a file|edit|--edits=|
# options that were there
|2||mezdruk fmt: `--tabs` asks for a second layout|fmt|--pretty|--tabs|
|2||mezdruk fmt: `--indent` asks for a second layout|fmt|-c|--indent|4|
|2||mezdruk fmt: `-c` asks for a second layout|fmt|--indent|4|-c|
|2||mezdruk fmt: `-S`: the option occurs twice|fmt|--sort-keys|-S|
|2||mezdruk set: `-v`: the option occurs twice|set|--verbose|-v|
|2||mezdruk diff: `--merge`: the option occurs twice|diff|--merge|--merge|
|2||mezdruk set: `--string`: the option occurs twice|set|--string|--string|
|2||mezdruk get: `--bom`: the option occurs twice|get|--bom|/a|--bom|
|2||mezdruk fmt: `-M`: at most one of --color, -C and -M is taken, once|fmt|--color|-M|
|2||mezdruk set: `--string`: the option has to come before VALUE|set|/a|"b"|--string|
|2||mezdruk query: `--count`: the option occurs twice|query|--count|$|--count|
|2||mezdruk query: `-e`: the option occurs twice|query|--exit-status|-e|
|2||mezdruk fmt: `--sort-keys`: the option occurs twice|fmt|--sort-keys|a|--sort-keys|
|2||mezdruk fmt: `-i`: the option occurs twice|fmt|--in-place|-i|
|2||mezdruk fmt: `--stream`: at most one of --lines and --stream is taken, once|fmt|--lines|--stream|
|2||mezdruk fmt: `--lines`: at most one of --lines and --stream is taken, once|fmt|--stream|--lines|
|2||mezdruk edit: `--edits=b` names a second file|edit|--edits=a|--edits=b|
|2||mezdruk edit: `--edits=a`: the option has to come before operands and files|edit|[]|--edits=a|
# options that a stream does not have
|0|||check|--lines|--unique-keys|--depth=3|
|2||mezdruk check: `--unique-keys`: --stream goes with no --unique-keys and no --depth=N|check|--stream|--unique-keys|
|2||mezdruk fmt: `--depth=3`: --stream goes with no --unique-keys and no --depth=N|fmt|--stream|a.json|--depth=3|
|2||mezdruk fmt: `--stream`: --stream goes with no --unique-keys and no --depth=N|fmt|--depth=254|--stream|
|2||mezdruk get: `--stream`: --stream goes with no --unique-keys and no --depth=N|get|--unique-keys||--stream|
|2||mezdruk fmt: `--unique-keys`: the option occurs twice|fmt|--unique-keys|--unique-keys|--stream|
# in place
|2||mezdruk fmt: `-`: standard input cannot be changed in place|fmt|-i|-|
|2||mezdruk fmt: `-i`: standard input cannot be changed in place|fmt|-|-i|
|2||mezdruk fmt: a file to change in place is missing|fmt|-i|
# operands that are missing
|2||mezdruk edit: EDITS is missing|edit|
|2||mezdruk get: PATH is missing|get|--raw|
|2||mezdruk keys: PATH is missing|keys|
|2||mezdruk query: QUERY is missing|query|--raw|
|2||mezdruk set: VALUE is missing|set|[]|
|2||mezdruk insert: KEY is missing|insert|[]|
|2||mezdruk remove: STEP is missing|remove|[]|
|2||mezdruk merge: PATCH is missing|merge|--tabs|
|2||mezdruk diff: OLD is missing|diff|--merge|
# operands that are no JSON text
|2||mezdruk edit: EDITS is no JSON text: EofWhileParsing at offset 1, line 1 column 2|edit|[|
|2||mezdruk edit: EDITS is no JSON text: InvalidJsonValue at offset 0, line 1 column 1|edit|a.json|
|2||mezdruk set: PATH is no JSON Pointer and no JSON text: InvalidJsonValue at offset 0, line 1 column 1%0Ahint: did you mean `/version`?|set|version|2|
|2||mezdruk push: PATH is no JSON Pointer and no JSON text: EofWhileParsing at offset 1, line 1 column 2|push|[|2|
|2||mezdruk set: VALUE is no JSON text: InvalidJsonValue at offset 0, line 1 column 1%0Ahint: did you mean '"b"', or `--string b`?|set|["a"]|b|
|2||mezdruk set: VALUE is no JSON text: InvalidJsonValue at offset 0, line 1 column 1%0Ahint: did you mean '"Ada"', or `--string Ada`?|set|/name|Ada|
|2||mezdruk set: VALUE is no JSON text: InvalidJsonValue at offset 0, line 1 column 1|set|/name|it's|
|2||mezdruk insert: KEY is no JSON text: InvalidJsonValue at offset 0, line 1 column 1%0Ahint: did you mean '"k"'?|insert|/a|k|1|
|2||mezdruk remove: STEP is no JSON text: InvalidJsonValue at offset 0, line 1 column 1%0Ahint: did you mean '"k"'?|remove|/a|k|
|2||mezdruk set: VALUE is no JSON text: EofWhileParsing at offset 0, line 1 column 1|set|["a"]||
|2||mezdruk patch: PATCH is no JSON text: TrailingCharacters at offset 3, line 1 column 4|patch|[] []|
# queries that are none
|2||mezdruk query: QUERY is no JSONPath query: `$` is expected (ExpectedRoot) at offset 0%0A%0A^|query||
|2||mezdruk query: QUERY is no JSONPath query: `$` is expected (ExpectedRoot) at offset 0%0A.a%0A^%0Ahint: did you mean `$.a`?|query|.a|
|2||mezdruk query: QUERY is no JSONPath query: `$` is expected (ExpectedRoot) at offset 0%0A/a%0A^%0Ahint: `mezdruk get` takes a JSON Pointer|query|/a|
|2||mezdruk query: QUERY is no JSONPath query: `.` or `[` is expected (ExpectedSegment) at offset 1%0A$a%0A ^|query|$a|
|2||mezdruk query: QUERY is no JSONPath query: a name or `*` is expected (ExpectedName) at offset 2%0A$.%0A  ^|query|$.|
|2||mezdruk query: QUERY is no JSONPath query: a string, an index, a slice or `*` is expected (ExpectedSelector) at offset 2%0A$[]%0A  ^|query|$[]|
|2||mezdruk query: QUERY is no JSONPath query: `,` or `]` is expected (ExpectedCommaOrBracket) at offset 3%0A$[01]%0A   ^|query|$[01]|
|2||mezdruk query: QUERY is no JSONPath query: a digit from 1 to 9 is expected (ExpectedDigit) at offset 3%0A$[-0]%0A   ^|query|$[-0]|
|2||mezdruk query: QUERY is no JSONPath query: the string is not closed (UnclosedString) at offset 5%0A$['ä%0A    ^|query|$['ä|
|2||mezdruk query: QUERY is no JSONPath query: the escape is none of a string (InvalidEscape) at offset 4%0A$['\x']%0A    ^|query|$['\x']|
|2||mezdruk query: QUERY is no JSONPath query: filters are not supported yet (Filter) at offset 2%0A$[?@.a]%0A  ^|query|$[?@.a]|
|2||mezdruk query: there is no option `--bogus`|query|--bogus|.a|
# operands of another form
|2||mezdruk edit: EDITS is no array of edits|edit|{}|
|2||mezdruk edit: element 1 of EDITS is no edit: it is not ["set", path, value]|edit|[["push",[],1],["set",[]]]|
|2||mezdruk edit: element 0 of EDITS is no edit: its name is none of set, insert, push and remove|edit|[["sett",[],1]]|
|2||mezdruk edit: element 0 of EDITS is no edit: its path is no array of steps|edit|[["set","/a",1]]|
|2||mezdruk set: PATH is no JSON Pointer and no array of steps|set|"version"|2|
|2||mezdruk set: PATH is no JSON Pointer and no array of steps|set|"/version"|2|
|2||mezdruk set: PATH is no JSON Pointer and no array of steps|set|/a~2|2|
|2||mezdruk get: PATH is no JSON Pointer and no array of steps|get|/a~|
|2||mezdruk get: PATH is no JSON Pointer and no array of steps|get|/a|--path=/a~|
|2||mezdruk get: PATH is no JSON Pointer and no JSON text: InvalidJsonValue at offset 0, line 1 column 1|get|/a|--path=b|
|2||mezdruk set: step 1 of PATH is no string and no index|set|["a",1.5]|2|
|2||mezdruk insert: KEY is no string|insert|[]|1|2|
|2||mezdruk remove: STEP is no string and no index|remove|[]|-1|
|2||mezdruk get: PATH is no JSON Pointer and no JSON text: InvalidJsonValue at offset 0, line 1 column 1%0Ahint: did you mean `/version`?|get|version|
|2||mezdruk get: step 0 of PATH is no string and no index|get|[null]|
# the first that is wrong
|2||mezdruk edit: EDITS is no JSON text: EofWhileParsing at offset 1, line 1 column 2|edit|[|--bogus|
|2||mezdruk fmt: there is no option `--bogus`|fmt|--bogus|--pretty|--pretty|
|2||mezdruk set: `--tabs` asks for a second layout|set|--compact|--tabs|[|
"#;

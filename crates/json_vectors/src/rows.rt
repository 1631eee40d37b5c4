// Inputs and words with the results of `run`.

/// Worked examples of `reshape::run`, one on each line, in the form that `json_command::rows`
/// reads: the input, the status, the output, the error and the arguments, each with `|` after it. A
/// line that begins with `#` is a comment.
pub const ROWS: &str = r#"# texts, compact
{"a": 1, "b": true, "c": null}|0|{"a":1,"b":true,"c":null}||
[-0,1.0,1e400,12345678901234567890123,18446744073709551615]|0|[-0,1.0,1e400,12345678901234567890123,18446744073709551615]||
"\ud83d\ude04\u0041\/\u0000"|0|"😄A/\u0000"||
{"a": 1, "a": true, "a": null}|0|{"a":1,"a":true,"a":null}||
 %09%0A%0D[ %09%0A%0D1 %09%0A%0D, %09%0A%0D{ %09%0A%0D} %09%0A%0D] %09%0A%0D|0|[1,{}]||
"%7F"|0|"%7F"||
"\u001F\b\f\n\r\t\"\\"|0|"\u001f\b\f\n\r\t\"\\"||
[[],{},[[]],[{}]]|0|[[],{},[[]],[{}]]||
{"":"","\u0061":[false]}|0|{"":"","a":[false]}||
 -12.5e+3%0A|0|-12.5e+3||
%09true |0|true||
"é€"|0|"é€"||
"\n"|0|"\n"||
«254 [»«254 ]»|0|«254 [»«254 ]»||
"«1000000 a»"|0|"«1000000 a»"||
# faults at their places
|1||EofWhileParsing at offset 0, line 1 column 1|
"\ud800abc"|1||InvalidSurrogate at offset 7, line 1 column 8|
"\udc00"|1||InvalidSurrogate at offset 4, line 1 column 5|
"\ud8"|1||InvalidEscape at offset 5, line 1 column 6|
"\x"|1||InvalidEscape at offset 2, line 1 column 3|
"\u12g4"|1||InvalidEscape at offset 5, line 1 column 6|
"\uDBDD\u1DD000"|1||InvalidSurrogate at offset 9, line 1 column 10|
[[[[|1||EofWhileParsing at offset 4, line 1 column 5|
[1,]|1||InvalidJsonValue at offset 3, line 1 column 4|
{"a":1,}|1||TrailingComma at offset 7, line 1 column 8|
[01]|1||InvalidNumber at offset 2, line 1 column 3|
[1x|1||ExpectedArrayCommaOrEnd at offset 2, line 1 column 3|
{"a" 1}|1||ExpectedColon at offset 5, line 1 column 6|
{1}|1||ExpectObjectKeyOrEnd at offset 1, line 1 column 2|
{"a":1 "b"|1||ExpectedObjectCommaOrEnd at offset 7, line 1 column 8|
{} x|1||TrailingCharacters at offset 3, line 1 column 4|
-|1||EofWhileParsing at offset 1, line 1 column 2|
nulx|1||InvalidLiteral at offset 3, line 1 column 4|
nul|1||EofWhileParsing at offset 3, line 1 column 4|
[tru]|1||InvalidLiteral at offset 4, line 1 column 5|
1.]|1||InvalidNumber at offset 2, line 1 column 3|
1.|1||EofWhileParsing at offset 2, line 1 column 3|
01|1||InvalidNumber at offset 1, line 1 column 2|
True|1||InvalidJsonValue at offset 0, line 1 column 1|
1 2|1||TrailingCharacters at offset 2, line 1 column 3|
"%80%90"|1||InvalidUTF8 at offset 1, line 1 column 2|
x%FF|1||InvalidUTF8 at offset 1, line 1 column 2|
"%00%00%00%80%90"|1||InvalidUTF8 at offset 4, line 1 column 5|
%EF%BB%BF1|1||InvalidJsonValue at offset 0, line 1 column 1|
"%0A"|1||ControlCharacter at offset 1, line 1 column 2|
%0A{%0A"k": "v",%0A"a": [, 1]%0A}|1||InvalidJsonValue at offset 19, line 4 column 7|
[[[[[[[[[[[[[[[[[[[[[[[[[[[[[[[[[[[[[[[[x|1||InvalidJsonValue at offset 40, line 1 column 41|
[[[[[[[[[[[[[[[[[[[[[[[[[[[[[[[[[[[[[[[["\ud800x|1||InvalidSurrogate at offset 47, line 1 column 48|
%FF|1||InvalidUTF8 at offset 0, line 1 column 1|
«255 [»«255 ]»|1||RecursionLimitExceeded at offset 254, line 1 column 255|
«300 [»|1||RecursionLimitExceeded at offset 254, line 1 column 255|
«1000 [»|1||RecursionLimitExceeded at offset 254, line 1 column 255|
«1000000 [»|1||RecursionLimitExceeded at offset 254, line 1 column 255|
"«1000000 \»|1||EofWhileParsing at offset 1000001, line 1 column 1000002|
# edits that apply, and the first that does not
{"a": 1, "a": true}|0|{"a":2,"a":true}||[["set",["a"],2]]|
{"a": 1, "a": true, "a": null}|0|{"a":2,"a":true,"a":null}||[["set",["a"],2]]|
{"a": 1, "a": true, "a": null}|0|{}||[["remove",[],"a"]]|
[1,2,3]|0|[1,3]||[["remove",[],1]]|
1|0|{"x":[1.50]}||[["set",[],{"x":[1.50]}]]|
{"\u0061":1}|0|{"a":2}||[["set",["a"],2]]|
{"a":1}|0|{"a":2}||[["set",["\u0061"],2]]|
[ 1 ]|0|[1]||[]|
[[1],[2]]|0|[[1],["x"]]||[["set",[1,0],"x"]]|
{"a":{"b":[0,{"c":1}]}}|0|{"a":{"b":[0,{"c":[]}]}}||[["set",["a","b",1,"c"],[]]]|
{"a":1,"b":2}|0|{"a":1,"b":3}||[["insert",[],"b",3]]|
{"a":1}|0|{"a":1,"b":null}||[["insert",[],"b",null]]|
{"a":1,"a":2}|0|{"a":3,"a":2}||[["insert",[],"a",3]]|
{}|0|{"":[]}||[["insert",[],"",[]]]|
[]|0|[1,2]||[["push",[],1],["push",[],2]]|
{"a":[1]}|0|{"a":[1,{}]}||[["push",["a"],{}]]|
{"a":1,"b":2,"a":3}|0|{"b":2,"a":4}||[["remove",[],"a"],["insert",[],"a",4]]|
[1]|0|{"a":[2]}||[["set",[],{"a":[]}],["push",["a"],1],["set",["a",0],2]]|
[0,-0,1e400]|0|[0,-0,1e400,1E+2]||[["push",[],1E+2]]|
{%0A    "name": "Xiaoming",%0A    "obj": {},%0A    "arr": [],%0A    "age": 18,%0A    "address": {%0A        "city": "Beijing"%0A    },%0A    "phones": [%0A        "+123456"%0A    ]%0A}|0|{"name":"Xiaoming","obj":{},"arr":[],"age":18,"address":{"city":"Beijing"},"phones":["+123456"],"inserted":true}||[["insert",[],"inserted",true]]|
{"a": 1, "b": 1.50}|0|{"a":2,"b":1.50}||[["set",["a"],2]]|
«254 [»«254 ]»|0|«255 [»«255 ]»||[["push",[0«252 ,0»],[]]]|
«254 [»«254 ]»|0|«506 [»«506 ]»||[["push",[0«252 ,0»],«252 [»«252 ]»]]|
{"a":[1]}|3||NotFound in edit 0|[["set",["a",5],0]]|
null|3||TypeUnmatched in edit 0|[["set",["k"],1]]|
1|3||TypeUnmatched in edit 0|[["push",[],1]]|
{"a":[1]}|3||NotFound in edit 1|[["push",["a"],2],["set",["a",5],0]]|
null|3||TypeUnmatched in edit 0|[["insert",[],"k",1]]|
[1,2,3]|3||NotFound in edit 0|[["remove",[],3]]|
{"a":1}|3||NotFound in edit 0|[["remove",[],"b"]]|
{"a":1}|3||TypeUnmatched in edit 0|[["remove",[],0]]|
[1]|3||TypeUnmatched in edit 0|[["remove",[],"a"]]|
{"a":1}|3||NotFound in edit 0|[["set",["b"],2]]|
{"a":"x"}|3||TypeUnmatched in edit 0|[["set",["a","b"],2]]|
[[]]|3||NotFound in edit 0|[["set",[0,0],2]]|
{}|3||TypeUnmatched in edit 1|[["insert",[],"a",1],["push",["a"],2],["set",["b"],3]]|
[]|3||NotFound in edit 0|[["set",[4294967295],1]]|
# an indent for each level, and members in the order of their keys
{"a":[1,{}]}|0|{%0A  "a": [%0A    1,%0A    {}%0A  ]%0A}||--pretty|
{"a":[1,{}]}|0|{%0A%09"a": [%0A%09%091,%0A%09%09{}%0A%09]%0A}||--tabs|
{"a":[1,{}]}|0|{%0A"a": [%0A1,%0A{}%0A]%0A}||--indent=0|
{"a":[1,{}]}|0|{%0A "a": [%0A  1,%0A  {}%0A ]%0A}||--indent=1|
{"a":[1,{}]}|0|{%0A  "a": [%0A    1,%0A    {}%0A  ]%0A}||--indent=2|
{"a":[1,{}]}|0|{%0A        "a": [%0A                1,%0A                {}%0A        ]%0A}||--indent=8|
{"a":[1,{}]}|0|{"a":[1,{}]}||--sort-keys|
{"b": 2,"bc":{"cb":1,"ca":"hello"},"a": 1}|0|{"a":1,"b":2,"bc":{"ca":"hello","cb":1}}||--sort-keys|
{"b":1,"a":2,"b":0,"a":1}|0|{"a":2,"a":1,"b":1,"b":0}||--sort-keys|
[{"b":[],"a":{}}]|0|[{"a":{},"b":[]}]||--sort-keys|
# options in any order
{"b":1}|0|{%0A  "a": [],%0A  "b": 1%0A}||--pretty|--sort-keys|[["insert",[],"a",[]]]|
{"b":1}|0|{%0A  "a": [],%0A  "b": 1%0A}||--sort-keys|[["insert",[],"a",[]]]|--indent=2|
{"b":1}|0|{%0A%09"a": [],%0A%09"b": 1%0A}||[["insert",[],"a",[]]]|--tabs|--sort-keys|
{"b":1}|0|{%0A  "a": [],%0A  "b": 1%0A}||--sort-keys|[["insert",[],"a",[]]]|--pretty|
{"b":1}|0|{%0A  "a": [],%0A  "b": 1%0A}||[["insert",[],"a",[]]]|--pretty|--sort-keys|
{"b":1}|0|{%0A  "a": [],%0A  "b": 1%0A}||--sort-keys|--indent=2|[["insert",[],"a",[]]]|
{}|0|{%0A%09"a": []%0A}||--tabs|[["insert",[],"a",[]]]|
{"b":1}|0|{"a":[],"b":1}||[["insert",[],"a",[]]]|--sort-keys|
# rules that are asked for
{"a":1,"b":2,"\u0061":3}|1||DuplicateKey at offset 13, line 1 column 14|--unique-keys|
{"a":{"a":1}}|0|{"a":{"a":1}}||--unique-keys|
{"a":1,"a":}|1||InvalidJsonValue at offset 11, line 1 column 12|
{"a":1,"a":}|1||DuplicateKey at offset 7, line 1 column 8|--unique-keys|
[[[[[[{"a":1,"a":|1||DuplicateKey at offset 13, line 1 column 14|--unique-keys|
[[[[[[{"a":1,"a":|1||EofWhileParsing at offset 17, line 1 column 18|
[]|1||RecursionLimitExceeded at offset 0, line 1 column 1|--depth=0|
1|0|1||--depth=0|
[{"a":1,"a":2}]|1||RecursionLimitExceeded at offset 1, line 1 column 2|--depth=1|--unique-keys|
{"a":1,"a":[]}|1||DuplicateKey at offset 7, line 1 column 8|--unique-keys|--depth=1|
{"a":1,"a|1||EofWhileParsing at offset 9, line 1 column 10|--unique-keys|
«1024 [»«1024 ]»|0|«1024 [»«1024 ]»||--depth=1024|
«1025 [»«1025 ]»|1||RecursionLimitExceeded at offset 1024, line 1 column 1025|--depth=1024|
# which concern the input alone
{"a":1}|0|{"a":[[{"b":1,"b":2}]]}||--unique-keys|--depth=1|[["set",["a"],[[{"b":1,"b":2}]]]]|
# made input, for which nothing is read
x|0|in 2 184%0Aout 2 184%0A||--make=0|
x|0|in 42 2443%0Aout 31 1910%0A||--make=1|
x|0|in 84 4779%0Aout 61 3681%0A||--make=2|
# words that are refused
1|2||BadWords|--|
1|2||BadWords|---|
1|2||BadWords|--Pretty|
1|2||BadWords|--pretty |
1|2||BadWords|--prett|
1|2||BadWords|--pretty=2|
1|2||BadWords|--tab|
1|2||BadWords|--indent|
1|2||BadWords|--indent=|
1|2||BadWords|--indent=9|
1|2||BadWords|--indent=10|
1|2||BadWords|--indent=02|
1|2||BadWords|--indent=-1|
1|2||BadWords|--indent= |
1|2||BadWords|--sort|
1|2||BadWords|--sort-keys=1|
1|2||BadWords|--unique-keys=1|
1|2||BadWords|--unique|
1|2||BadWords|--depth|
1|2||BadWords|--depth=|
1|2||BadWords|--depth=1025|
1|2||BadWords|--depth=01|
1|2||BadWords|--depth=+5|
1|2||BadWords|--depth=5 |
1|2||BadWords|--depth=-0|
1|2||BadWords|--depth=18446744073709551616|
1|2||BadWords|-|
1|2||BadWords|-pretty|
1|2||BadWords| --pretty|
1|2||BadWords|--make|
1|2||BadWords|--make=|
1|2||BadWords|--make=01|
1|2||BadWords|--make=+1|
1|2||BadWords|--make=100001|
1|2||BadWords|--make=-1|
1|2||BadWords|--made=1|
1|2||BadWords||
1|2||BadWords| |
1|2||BadWords|[] []|
1|2||BadWords|{}|
1|2||BadWords|[["set",["a"]]]|
1|2||BadWords|[["set","a",1]]|
1|2||BadWords|[["Set",[],1]]|
1|2||BadWords|[["push",[1.0],0]]|
1|2||BadWords|[["push",[4294967296],0]]|
1|2||BadWords|[["push",[-1],0]]|
1|2||BadWords|[["push",[null],0]]|
1|2||BadWords|[["insert",[],1,0]]|
1|2||BadWords|[["insert",[],"a"]]|
1|2||BadWords|[["remove",[],[]]]|
1|2||BadWords|[["push",[],0,0]]|
1|2||BadWords|[[]]|
1|2||BadWords|[["set",[],01]]|
1|2||BadWords|[["set"]]|
1|2||BadWords|[["set",["a"],0,0]]|
1|2||BadWords|[["set","a",0]]|
1|2||BadWords|[["set",[null],0]]|
1|2||BadWords|[["Set",[],0]]|
1|2||BadWords|[["push",[1e2],0]]|
1|2||BadWords|[["push",[-0],0]]|
1|2||BadWords|[["remove",[],null]]|
1|2||BadWords|[["remove",[]]]|
1|2||BadWords|[["set",[],0],["set"]]|
1|2||BadWords|{"set":[]}|
1|2||BadWords|[]|--|
1|2||BadWords|[]|---|
1|2||BadWords|[]|--Pretty|
1|2||BadWords|[]|--pretty |
1|2||BadWords|[]|--prett|
1|2||BadWords|[]|--pretty=2|
1|2||BadWords|[]|--tab|
1|2||BadWords|[]|--indent|
1|2||BadWords|[]|--indent=|
1|2||BadWords|[]|--indent=9|
1|2||BadWords|[]|--indent=10|
1|2||BadWords|[]|--indent=02|
1|2||BadWords|[]|--indent=-1|
1|2||BadWords|[]|--indent= |
1|2||BadWords|[]|--sort|
1|2||BadWords|[]|--sort-keys=1|
1|2||BadWords|[]|--unique-keys=1|
1|2||BadWords|[]|--unique|
1|2||BadWords|[]|--depth|
1|2||BadWords|[]|--depth=|
1|2||BadWords|[]|--depth=1025|
1|2||BadWords|[]|--depth=01|
1|2||BadWords|[]|--depth=+5|
1|2||BadWords|[]|--depth=5 |
1|2||BadWords|[]|--depth=-0|
1|2||BadWords|[]|--depth=18446744073709551616|
1|2||BadWords|[]|-|
1|2||BadWords|[]|-pretty|
1|2||BadWords|[]| --pretty|
1|2||BadWords|--pretty|--tabs|
1|2||BadWords|--pretty|--pretty|
1|2||BadWords|--tabs|--indent=2|
1|2||BadWords|--indent=2|--indent=2|
1|2||BadWords|--indent=0|--indent=4|
1|2||BadWords|--sort-keys|--sort-keys|
1|2||BadWords|--unique-keys|--unique-keys|
1|2||BadWords|--depth=5|--depth=5|
1|2||BadWords|--depth=5|--depth=6|
1|2||BadWords|[]|[]|
1|2||BadWords|[]|{}|
1|2||BadWords|--sort-keys|[]|--sort-keys|
1|2||BadWords|--pretty|[]|--tabs|
1|2||BadWords|[]|--pretty|[]|
1|2||BadWords|--make=1|--pretty|
1|2||BadWords|--make=1|--make=1|
1|2||BadWords|[]|--make=1|
"#;

/// The worked example of the largest generated input. It is not one of [`ROWS`], since it takes
/// half a minute where nothing is optimized.
pub const LARGEST_MADE: &str =
    "x|0|in 4588890 254416828%0Aout 3388891 197916860%0A||--make=100000|";

// Inputs and arguments with the results of `run_lines`.

/// Worked examples, as `json_command::rows` reads them: the input, the status, the output, the
/// errors, and the arguments, each closed by `|`.
pub const ROWS: &str = r#"# a row of each good line, an error of each bad one
{"a":1}%0A[%0A{"a":"x"}%0A|1|1%09-%0A-%09"x"%0A|2: EofWhileParsing at offset 1, line 1 column 2|[[["a"],"int"],[["a"],"text"]]|
{"b":true}%0A%0A{"a":1}|0|true%0A||--has=["b"]|[[["b"],"bool"]]|
{"b":true}%0A%0A{"a":1}|0|true%0A||[[["b"],"bool"]]|--has=["b"]|
|0|||[[[],"text"]]|
%0A|0|||[[[],"text"]]|
%0A%0A1|0|1%0A||[[[],"json"]]|
1%0A2|0|1%0A2%0A||[[[],"json"]]|
x%0Ay%0A1|1|1%0A|1: InvalidJsonValue at offset 0, line 1 column 1%0A2: InvalidJsonValue at offset 0, line 1 column 1|[[[],"json"]]|
%0A x%0A%0A [1|1||2: InvalidJsonValue at offset 1, line 1 column 2%0A4: EofWhileParsing at offset 3, line 1 column 4|[[[],"json"]]|
# whitespace, and a carriage return before the newline
[ 1 , "x" ]%0D%0A %09%0A{ "a" : { } }|0|[1,"x"]%0A{"a":{}}%0A||[[[],"json"]]|
%0D%0A%0D|0|||[[[],"json"]]|
# cells
[-0]%0A[1.0]%0A[18446744073709551615]%0A[-9223372036854775809]%0A|0|-%0A-%0A18446744073709551615%0A-%0A||[[[0],"int"]]|
[-9223372036854775808]%0A[18446744073709551616]%0A[1e2]|0|-9223372036854775808%0A-%0A-%0A||[[[0],"int"]]|
"a\u0009b"%0A"%C3%A9"|0|"a\tb"%0A"%C3%A9"%0A||[[[],"text"]]|
true%0Afalse%0Anull%0A"true"|0|true%0Afalse%0A-%0A-%0A||[[[],"bool"]]|
{"a":[1,{"b":2}]}|0|2%09-%09[1,{"b":2}]%0A||[[["a",1,"b"],"json"],[["a",2],"json"],[["a"],"json"]]|
{"a":1,"a":2}|0|1%0A||[[["a"],"json"]]|
{"a":null}|0|null%0A||--has=["a"]|[[["a"],"json"]]|
[]|0|||--has=[0]|[[[],"json"]]|
1|0|1%091%091%0A||[[[],"json"],[[],"json"],[[],"int"]]|
# not UTF-8 in one line
{"a":1}%0A%FF%0A{"a":3}|1|1%0A3%0A|2: InvalidUTF8 at offset 0, line 1 column 1|[[["a"],"json"]]|
"%C3%0A%A9"|1||1: InvalidUTF8 at offset 1, line 1 column 2%0A2: InvalidUTF8 at offset 0, line 1 column 1|[[[],"json"]]|
# levels
«254 [»«254 ]»|0|«254 [»«254 ]»%0A||[[[],"json"]]|
«255 [»«255 ]»|1||1: RecursionLimitExceeded at offset 254, line 1 column 255|[[[],"json"]]|
# arguments that ask for nothing
1|2||BadWords|
1|2||BadWords|[]|
1|2||BadWords|[[[],"texts"]]|
1|2||BadWords|[[[],"text",1]]|
1|2||BadWords|[[[]]]|
1|2||BadWords|[[[-1],"text"]]|
1|2||BadWords|[[["a",1.5],"text"]]|
1|2||BadWords|{"a":[[],"text"]}|
1|2||BadWords|[[[],"text"]|
1|2||BadWords|[[[],"text"]]|[[[],"text"]]|
1|2||BadWords|--has=[]|--has=[]|
1|2||BadWords|--has=[]|
1|2||BadWords|--has=1|[[[],"text"]]|
1|2||BadWords|--has=|[[[],"text"]]|
1|2||BadWords|--has=[]|[[[],"text"]]|--has=[]|
1|2||BadWords|--csv|
1|2||BadWords|--csv|[[[],"text"]]|--csv|
1|2||BadWords|--strict|--strict|[[[],"text"]]|
1|2||BadWords|--Csv|[[[],"text"]]|
1|2||BadWords|--csv=1|[[[],"text"]]|
# the first bad line ends the run
1%0A[%0A2|1|1%0A|2: EofWhileParsing at offset 1, line 1 column 2|--strict|[[[],"json"]]|
1%0A[%0A{%0A2|1|1%0A|2: EofWhileParsing at offset 1, line 1 column 2|[[[],"json"]]|--strict|
1%0A%0A2|0|1%0A2%0A||--strict|[[[],"json"]]|
x|1||1: InvalidJsonValue at offset 0, line 1 column 1|--strict|[[[],"json"]]|
1%0A%FF%0A%FF|1|1%0A|2: InvalidUTF8 at offset 0, line 1 column 1|--strict|[[[],"json"]]|
{"a":1}%0A1%0A[%0A{"a":2}|1|1%0A|3: EofWhileParsing at offset 1, line 1 column 2|--has=["a"]|--strict|[[["a"],"json"]]|
# CSV: a header, and records that end with CR and LF
|0|"[""a""]"%0D%0A||--csv|[[["a"],"int"]]|
%0A %0A|0|[],"[0,""b""]"%0D%0A||[[[],"int"],[[0, "b"],"text"]]|--csv|
{"a":1,"b":"x"}|0|"[""a""]","[""b""]"%0D%0A1,x%0D%0A||--csv|[[["a"],"int"],[["b"],"text"]]|
{"a":1}%0A[%0A{"a":2}|1|"[""a""]"%0D%0A1%0D%0A2%0D%0A|2: EofWhileParsing at offset 1, line 1 column 2|--csv|[[["a"],"int"]]|
{"a":1}%0A[%0A{"a":2}|1|"[""a""]"%0D%0A1%0D%0A|2: EofWhileParsing at offset 1, line 1 column 2|--strict|--csv|[[["a"],"int"]]|
{"a":1}%0A{"b":2}|0|"[""b""]"%0D%0A2%0D%0A||--csv|--has=["b"]|[[["b"],"int"]]|
# fields between double quotes, and fields without a value
"a,b"%0A"a\"b"%0A"a\nb"%0A"a\rb"%0A"\"\""%0A"\"a"|0|[]%0D%0A"a,b"%0D%0A"a""b"%0D%0A"a%0Ab"%0D%0A"a%0Db"%0D%0A""""""%0D%0A"""a"%0D%0A||--csv|[[[],"text"]]|
""%0Anull%0A"a b"%0A"\t;'%C3%A9"|0|[]%0D%0A""%0D%0A%0D%0Aa b%0D%0A%09;'%C3%A9%0D%0A||--csv|[[[],"text"]]|
[1.0,-0]%0A[18446744073709551615,-1]|0|[0],[1]%0D%0A,%0D%0A18446744073709551615,-1%0D%0A||--csv|[[[0],"int"],[[1],"int"]]|
[true,false,null]|0|[0],[1],[2]%0D%0Atrue,false,%0D%0A||--csv|[[[0],"bool"],[[1],"bool"],[[2],"bool"]]|
[1, "x", [2, 3], {"a": null}, null]|0|[0],[1],[2],[3],[4],[5]%0D%0A1,"""x""","[2,3]","{""a"":null}",null,%0D%0A||--csv|[[[0],"json"],[[1],"json"],[[2],"json"],[[3],"json"],[[4],"json"],[[5],"json"]]|
# 64 columns are the most
1|0|«63 1%09»1%0A||[«63 [[],"int"],»[[],"int"]]|
1|2||BadWords|[«64 [[],"int"],»[[],"int"]]|
"#;

/// Lines of 1,048,576 bytes, which is the limit, and of one byte more.
pub const LONG_ROWS: &str = r#"# spaces and a number
«1048575  »1|0|1%0A||[[[],"json"]]|
«1048576  »1|1||1: LineTooLong|[[[],"json"]]|
«1048576  »1%0A2|1|2%0A|1: LineTooLong|[[[],"json"]]|
1%0A«1048576  »1%0A«1048576  »1|1|1%0A|2: LineTooLong%0A3: LineTooLong|[[[],"json"]]|
# whitespace alone, within the limit and over it
«1048576  »%0A1|0|1%0A||[[[],"json"]]|
«1048577  »%0A1|1|1%0A|1: LineTooLong|[[[],"json"]]|
# a string
"«1048574 a»"|0|"«1048574 a»"%0A||[[[],"text"]]|
"«1048575 a»"|1||1: LineTooLong|[[[],"text"]]|
"#;

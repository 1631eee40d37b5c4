// The words of a command line.
use json_text::Words;
use std::alloc::Global;

fn in_order(alloc: Global) -> bool {
    let mut words = Words::new(alloc);
    words.push("--pretty").is_ok()
        && words.push("[]").is_ok()
        && words.len() == 2
        && words.word(1) == "[]"
}

#[test]
fn words_in_order(rt: HostRuntime) {
    assert!(rt; in_order(rt.alloc()));
}

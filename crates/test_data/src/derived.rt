// Structs that are read, refused and written.
use crate::looks::{Row, code_of, each_holds, holds, is_string, read};
use json_text::{ErrorCode, Result};
use std::alloc::Global;
use test_samples::account::{Account, Customer};

// A text of a customer, with the name, the age and how many phones there are.
struct Known {
    json: &'static str,
    name: &'static str,
    age: u8,
    phones: usize,
}

fn is_customer(it: &Customer, row: &Known) -> bool {
    it.name.as_str() == row.name && it.age == row.age && it.phones.len() == row.phones
}

impl Row for Known {
    fn text(&self) -> &'static str {
        self.json
    }

    fn holds(&self, alloc: Global) -> bool {
        match read::<Customer>(alloc, self.json) {
            Ok(it) => is_customer(&it, self),
            Err(_) => false,
        }
    }
}

const CUSTOMERS: &[Known] = &[
    Known {
        json: "{\"name\":\"Ada\",\"age\":36}",
        name: "Ada",
        age: 36,
        phones: 0,
    },
    Known {
        json: "{\"phones\":[\"1\",\"2\"],\"age\":7,\"name\":\"B\"}",
        name: "B",
        age: 7,
        phones: 2,
    },
    Known {
        json: "{\"age\":1,\"age\":2,\"n\":[{}],\"name\":\"C\"}",
        name: "C",
        age: 2,
        phones: 0,
    },
    Known {
        json: "{\"\\u0061ge\":3,\"name\":\"\"}",
        name: "",
        age: 3,
        phones: 0,
    },
];

#[test]
fn members_in_any_order(rt: HostRuntime) {
    each_holds(&rt, rt.alloc(), CUSTOMERS);
}

// A text of no customer, and the code with which it is refused.
struct NoCustomer {
    json: &'static str,
    code: ErrorCode,
}

impl Row for NoCustomer {
    fn text(&self) -> &'static str {
        self.json
    }

    fn holds(&self, alloc: Global) -> bool {
        code_of(read::<Customer>(alloc, self.json)) == Some(self.code)
    }
}

const NO_CUSTOMERS: &[NoCustomer] = &[
    NoCustomer {
        json: "{\"name\":\"Ada\"}",
        code: ErrorCode::TypeUnmatched,
    },
    NoCustomer {
        json: "{\"age\":1}",
        code: ErrorCode::TypeUnmatched,
    },
    NoCustomer {
        json: "[]",
        code: ErrorCode::TypeUnmatched,
    },
    NoCustomer {
        json: "{\"name\":1,\"age\":1}",
        code: ErrorCode::TypeUnmatched,
    },
    NoCustomer {
        json: "{\"name\":\"Ada\",\"age\":256}",
        code: ErrorCode::NumberOutOfRange,
    },
];

#[test]
fn customers_refused(rt: HostRuntime) {
    each_holds(&rt, rt.alloc(), NO_CUSTOMERS);
}

// A text, and the code with which it is refused as an account.
struct Refusable {
    json: &'static str,
    code: Option<ErrorCode>,
}

impl Row for Refusable {
    fn text(&self) -> &'static str {
        self.json
    }

    fn holds(&self, alloc: Global) -> bool {
        code_of(read::<Account>(alloc, self.json)) == self.code
    }
}

const ACCOUNTS: &[Refusable] = &[
    Refusable {
        json: "{\"owner\":{\"name\":\"A\",\"age\":1,\"more\":0}}",
        code: None,
    },
    Refusable {
        json: "{\"owner\":{\"name\":\"A\",\"age\":1},\"balance\":1}",
        code: Some(ErrorCode::TypeUnmatched),
    },
    Refusable {
        json: "{\"owner\":{\"name\":\"A\"}}",
        code: Some(ErrorCode::TypeUnmatched),
    },
];

#[test]
fn accounts_refused(rt: HostRuntime) {
    each_holds(&rt, rt.alloc(), ACCOUNTS);
}

// A text of an account, and what it is written as.
struct Written {
    json: &'static str,
    written: &'static str,
}

fn is_written(alloc: Global, row: &Written) -> Result<bool> {
    is_string(alloc, &read::<Account>(alloc, row.json)?, row.written)
}

impl Row for Written {
    fn text(&self) -> &'static str {
        self.json
    }

    fn holds(&self, alloc: Global) -> bool {
        holds(is_written(alloc, self))
    }
}

const WRITTEN: &[Written] = &[
    Written {
        json: "{\"owner\":{\"age\":1,\"name\":\"A\"}}",
        written: "{\"owner\":{\"name\":\"A\",\"age\":1,\"phones\":[]},\"balance-cents\":0,\"style\":\"plain\",\"active\":true,\"note\":null}",
    },
    Written {
        json: "{\"note\":\"n\",\"active\":false,\"style\":\"\",\"balance-cents\":-5,\"owner\":{\"phones\":[\"1\"],\"age\":0,\"name\":\"A\"}}",
        written: "{\"owner\":{\"name\":\"A\",\"age\":0,\"phones\":[\"1\"]},\"balance-cents\":-5,\"style\":\"\",\"active\":false,\"note\":\"n\"}",
    },
];

#[test]
fn accounts_written(rt: HostRuntime) {
    each_holds(&rt, rt.alloc(), WRITTEN);
}

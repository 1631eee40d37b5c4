// Structs that are read and written.
mod json;

// json: derive
/// A customer: an object with the members `name` and `age`, and `phones` where there are any.
#[derive(Drop)]
pub struct Customer {
    /// What the customer is called.
    pub name: String,
    /// In years.
    pub age: u8,
    /// Where the customer is called.
    // json: default
    pub phones: Vec<String>,
}

// json: derive strict
/// An account of a customer.
#[derive(Drop)]
pub struct Account {
    /// Who owns it.
    pub owner: Customer,
    /// How many cents it has.
    // json: name "balance-cents", default
    pub balance: i64,
    /// How it is shown.
    // json: default "plain"
    pub style: String,
    /// Whether it is in use.
    // json: default true
    pub active: bool,
    /// What is said of it.
    pub note: Option<String>,
}

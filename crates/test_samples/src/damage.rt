// Values from a text, one after another, with the place of the first that is damaged.
ghost use Rattle.std.specs.Prelude.{◌<◌, ◌^◌, length, IfOk};
ghost use Rattle.test_samples.specs.Damage.{UpToDamage, numbers};

use json_stream::Deserializer;
use json_text::{Error, Result};
use std::alloc::Global;

/// The numbers of a text, one after another, and what is wrong with the first thing that is none:
/// its code and its place. Where nothing is wrong that is `EofWhileParsing`, at the end.
pub fn numbers_up_to_damage(alloc: Global, text: &str) -> Result<(Vec<u64>, Error)>
    requires { length text.now < 2 ^ 32 }
    ensures { IfOk result (λ r. UpToDamage text.now (numbers r.0.items) r.1) }
{
    let mut found = Vec::new(alloc);
    let mut stream = Deserializer::from_str(text).into_stream::<u64>();
    'values: loop {
        match stream.next(alloc) {
            Some(Ok(number)) => found.push(number)?,
            Some(Err(damage)) => return Ok((found, damage)),
            None => unreachable!(),
        }
    }
}

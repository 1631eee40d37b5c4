// The params of a request (JSON-RPC 2.0, section 4.2), by position or by name.
ghost use Rattle.std.specs.Prelude.{◌≡◌, [], ◌∷◌, length, cond, None, Some, option_map};
ghost use Rattle.json_doc.specs.Readings.{children};
ghost use Rattle.json_doc_print.specs.Readings.{members};
ghost use Rattle.json_value.specs.Seen.{seen};
ghost use Rattle.json_rpc.specs.Params.{param_at, positional_params};

use json_value::View;

// Returns how many members there are; none if the value is no object.
fn member_count(view: View<'_>) -> usize
    ensures { result ≡ length (members (seen view.entry)) }
{
    match view.as_object() {
        Some(object) => object.len(),
        None => 0,
    }
}

// Returns how many params there are.
fn param_count(params: View<'_>) -> usize
    ensures { result ≡ length (children (seen params.entry)) }
{
    match params.as_array() {
        Some(array) => array.len(),
        None => member_count(params),
    }
}

// Returns the param of this position or of this name.
fn param_at<'a>(params: View<'a>, position: usize, name: &str) -> Option<View<'a>>
    ensures { option_map seen result ≡ param_at position name.now (seen params.entry) }
{
    match params.as_array() {
        Some(array) => array.get(position),
        None => params.get(name),
    }
}

/// Returns whether there are no params, as a method without params requires.
pub(crate) fn has_no_params(params: Option<View<'_>>) -> bool
    ensures { cond result (Some []) None ≡ positional_params [] (option_map seen params.entry) }
{
    match params {
        Some(params) => param_count(params) == 0,
        None => true,
    }
}

/// Returns the one param of a method; `None` if it is missing or there is another one.
#[tactic(auto, using(crate::proofs::PositionalParams::of_other_count, crate::proofs::PositionalParams::no_first, crate::proofs::PositionalParams::one_there))]
pub(crate) fn one_param<'a>(params: Option<View<'a>>, name: &str) -> Option<View<'a>>
    ensures { option_map (λ p. seen p ∷ []) result
        ≡ positional_params (name.now ∷ []) (option_map seen params.entry) }
{
    let view = params?;
    if param_count(view) != 1 {
        return None;
    }
    let param = param_at(view, 0, name)?;
    Some(param)
}

/// Returns the two params of a method; `None` if one is missing or there is another one.
#[tactic(auto, using(crate::proofs::PositionalParams::of_other_count, crate::proofs::PositionalParams::no_first, crate::proofs::PositionalParams::no_second, crate::proofs::PositionalParams::two_there))]
pub(crate) fn two_params<'a>(
    params: Option<View<'a>>,
    first_name: &str,
    second_name: &str,
) -> Option<(View<'a>, View<'a>)>
    ensures { option_map (λ p. seen p.0 ∷ seen p.1 ∷ []) result
        ≡ positional_params (first_name.now ∷ second_name.now ∷ [])
        (option_map seen params.entry) }
{
    let view = params?;
    if param_count(view) != 2 {
        return None;
    }
    let first = param_at(view, 0, first_name)?;
    let second = param_at(view, 1, second_name)?;
    Some((first, second))
}

/// Returns the three params of a method; `None` if one is missing or there is another one.
#[tactic(auto, using(crate::proofs::PositionalParams::of_other_count, crate::proofs::PositionalParams::no_first, crate::proofs::PositionalParams::no_second, crate::proofs::PositionalParams::no_third, crate::proofs::PositionalParams::three_there))]
pub(crate) fn three_params<'a>(
    params: Option<View<'a>>,
    first_name: &str,
    second_name: &str,
    third_name: &str,
) -> Option<(View<'a>, View<'a>, View<'a>)>
    ensures { option_map (λ p. seen p.0 ∷ seen p.1 ∷ seen p.2 ∷ []) result
        ≡ positional_params (first_name.now ∷ second_name.now ∷ third_name.now ∷ [])
        (option_map seen params.entry) }
{
    let view = params?;
    if param_count(view) != 3 {
        return None;
    }
    let first = param_at(view, 0, first_name)?;
    let second = param_at(view, 1, second_name)?;
    let third = param_at(view, 2, third_name)?;
    Some((first, second, third))
}

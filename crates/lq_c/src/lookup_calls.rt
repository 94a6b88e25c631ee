//! Looks at the volume for C: a fetch, an entry, a node by its place or path, and a rebuilt result.
ghost use Rattle.std.specs.Prelude.{◌≡◌, Ok};
ghost use Rattle.lq_script_request.specs.declared.request.Request.TheVariants.{Look};
ghost use Rattle.lq_script_request.specs.declared.request.Look.TheVariants as look;
ghost use Rattle.lq_embed.specs.Calls.{Fetches, FindsNode, Rebuilds, ShowsEntry};
ghost use Rattle.lq_embed.specs.PathNames.{FindsPath};
ghost use Rattle.lq_embed.specs.Requests.{fetch_request, find_request};
ghost use Rattle.lq_c.specs.Held.{held_state};
ghost use Rattle.lq_c.specs.Numbers.{made_after, shown_after};

use crate::handle::Lq;
use crate::handle_numbers::number_result;
use crate::outs::{FetchedResult, RebuiltResult};
use lq_embed::InfoOut;

/// As `Embedded::fetch`, whose status it answers; `made` counts its result.
#[unsafe(no_mangle)]
pub extern "C" fn lqp_fetch(
    handle: &mut Lq,
    made: &mut u64,
    formula: &[u8],
    out: &mut FetchedResult,
) -> u32
    ensures fetches { Fetches (held_state handle.old) (held_state handle.new)
        (held_state handle.old).pushed
        (fetch_request formula.now) result out.old.fetched out.new.fetched }
    ensures made { made.new ≡ made_after result made.old }
    ensures number { out.new.result ≡ shown_after result made.old out.old.result }
{
    let embedded = &mut handle.served_mut().embedded;
    let status = embedded.fetch(formula, &mut out.fetched);
    number_result(made, status, &mut out.result);
    status
}

/// As `Embedded::find`, whose status it answers.
#[unsafe(no_mangle)]
pub extern "C" fn lqp_find(handle: &mut Lq, dir: u64, name: &[u8], node: &mut u64) -> u32
    ensures { FindsNode (held_state handle.old) (held_state handle.new) (find_request dir name.now)
        result node.old node.new }
{
    handle.served_mut().embedded.find(dir, name, node)
}

/// As `Embedded::find_path`, whose status it answers.
#[unsafe(no_mangle)]
pub extern "C" fn lqp_find_path(handle: &mut Lq, dir: u64, path: &[u8], node: &mut u64) -> u32
    ensures { FindsPath (held_state handle.old) (held_state handle.new) dir path.now result
        node.old node.new }
{
    handle.served_mut().embedded.find_path(dir, path, node)
}

/// As `Embedded::rebuilt`, whose status it answers; `made` counts its result.
#[unsafe(no_mangle)]
pub extern "C" fn lqp_result(
    handle: &mut Lq,
    made: &mut u64,
    slot: u64,
    out: &mut RebuiltResult,
) -> u32
    ensures rebuilds { Rebuilds (held_state handle.old) (held_state handle.new)
        (Ok (Look (look.Rebuilt slot))) result out.old.rebuilt out.new.rebuilt }
    ensures made { made.new ≡ made_after result made.old }
    ensures number { out.new.result ≡ shown_after result made.old out.old.result }
{
    let embedded = &mut handle.served_mut().embedded;
    let status = embedded.rebuilt(slot, &mut out.rebuilt);
    number_result(made, status, &mut out.result);
    status
}

/// As `Embedded::entry`, whose status it answers.
#[unsafe(no_mangle)]
pub extern "C" fn lqp_entry(handle: &mut Lq, node: u64, out: &mut InfoOut) -> u32
    ensures { ShowsEntry (held_state handle.old) (held_state handle.new)
        (Ok (Look (look.Entry node))) result out.old out.new }
{
    handle.served_mut().embedded.entry(node, out)
}

//! The text of the picture of policies.
ghost use Rattle.std.specs.Prelude.{◌≡◌, ◌++◌, IfOk, OnOk};
ghost use Rattle.picture.specs.Policies.{IsPoliciesDrawable};
ghost use Rattle.picture.specs.PoliciesSvg.{policies_text, policies_title};

use crate::number::{push_number, push_total};
use crate::policies_bars::push_bars;
use crate::policies_curves::push_curves;
use crate::policies_legend::push_legend;
use crate::policies_value::PoliciesPicture;
use crate::writing::push_ground;
use coflow_units::NoMemory;
use std::alloc::Global;

/// The text of the picture of policies: SVG 1.1, without scripts, and with nothing that lies outside of it.
///
/// It has a title with the bound; for each policy a bar from 1 to its cost over the bound, on an axis by powers of 2,
/// with a line at 1, which no schedule is left of; for each policy the curve of completed coflows over slots, on an
/// axis by powers of ten; and a legend with the mean, the median and the 95th percentile of the completions. Policies
/// are told apart by colour and by dashes.
///
/// There are at most five policies, none costs less than the bound or more than 2^96, and each completes a coflow.
/// Where the bound is 0 there are no bars. The error is want of memory.
pub fn write_policies(alloc: Global, picture: &PoliciesPicture) -> Result<Vec<u8>, NoMemory>
    requires drawable { IsPoliciesDrawable picture.now }
    ensures text { IfOk result (λ bytes. bytes.items ≡ policies_text picture.now) }
{
    let mut text = Vec::new(alloc);
    push_ground(&mut text, 600)?;
    push_title(&mut text, picture)?;
    push_bars(&mut text, picture)?;
    push_curves(&mut text, picture)?;
    push_legend(&mut text, picture)?;
    text.extend_from_slice(b"</svg>\n")?;
    Ok(text)
}

/// The title.
fn push_title(text: &mut Vec<u8>, picture: &PoliciesPicture) -> Result<(), NoMemory>
    ensures { OnOk result (text.new.items ≡ text.old.items ++ policies_title picture.now) }
{
    push_number(
        text,
        b"<text x='70' y='24' font-size='16'>policies on ",
        picture.coflows,
    )?;
    push_total(
        text,
        b" coflows, no schedule costs less than ",
        picture.bound,
    )?;
    text.extend_from_slice(b"</text>\n")?;
    Ok(())
}

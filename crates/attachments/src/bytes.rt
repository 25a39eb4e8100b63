// How many color attachments there may be, and how many bytes they may take for one sample.
ghost use Rattle.std.specs.Prelude.{◌≡◌, ◌+◌, ◌≤◌, IfOk};
ghost use Rattle.faults.specs.Faults.{answer, first_of};
ghost use Rattle.attachments.specs.Bytes.{count_verdict, cost_verdict, cost_verdicts, bytes_after, bytes_of, BytesJudged, Rounding};

use crate::error::ColorAttachmentError;
use device::Device;
use faults::refuse_if;
use formats::texture::TextureFormat;

// Whether a device takes so many color attachments.
pub fn check_color_attachment_count(device: &Device, given: u64) -> Result<(), ColorAttachmentError>
    ensures { result ≡ answer (count_verdict device.now given) tt }
{
    let limit = u64::from(device.limits.max_color_attachments);
    refuse_if(
        given > limit,
        ColorAttachmentError::TooMany { given, limit },
    )
}

// The bytes once one attachment more is there: rounded up to its alignment, and then its cost.
fn add_cost(
    total: u32,
    index: u64,
    color: Option<TextureFormat>,
) -> Result<u32, ColorAttachmentError>
    requires { total ≤ 1000 }
    ensures value { result ≡ answer (cost_verdict index color) (bytes_after total color) }
    ensures most { IfOk result (λ n. n ≤ total + 20) }
{
    let Some(format) = color else {
        return Ok(total);
    };
    let Some(cost) = format.target_cost() else {
        return Err(ColorAttachmentError::NoByteCost { index });
    };
    let start = total.next_multiple_of(cost.component_alignment);
    Ok(start + cost.pixel_byte_cost)
}

// The bytes of all of them.
fn total_cost(colors: &[Option<TextureFormat>; 8]) -> Result<u32, ColorAttachmentError>
    ensures { result ≡ answer (first_of (cost_verdicts 0 colors.now)) (bytes_of colors.now) }
{
    let mut total = 0;
    for (i, color) in colors.iter().enumerate() {
        total = add_cost(total, i as u64, *color)?;
    }
    Ok(total)
}

// The bytes that the color attachments take for one sample, if the device takes so many.
pub fn validate_color_attachment_bytes_per_sample(
    device: &Device,
    colors: &[Option<TextureFormat>; 8],
) -> Result<u32, ColorAttachmentError>
    ensures judged { BytesJudged device.now colors.now result }
    ensures rounding { Rounding }
{
    let bytes = total_cost(colors)?;
    let total = u64::from(bytes);
    let limit = u64::from(device.limits.max_color_attachment_bytes_per_sample);
    refuse_if(
        total > limit,
        ColorAttachmentError::TooManyBytesPerSample { total, limit },
    )?;
    Ok(bytes)
}

// The faults of one target, inside those of a style.
ghost use Rattle.std.specs.Prelude.{◌≡◌};
ghost use Rattle.errors.specs.declared.create.CreateRenderPipelineError.TheVariants.{ColorState};

use errors::color::ColorStateError;
use errors::create::CreateRenderPipelineError;

pub(crate) fn fault_at(index: u64, e: ColorStateError) -> CreateRenderPipelineError
    ensures { result ≡ ColorState index e }
{
    CreateRenderPipelineError::ColorState(index, e)
}

//! The attributes and the limits of the standard that this profile does not support.
ghost use Rattle.std.specs.Prelude.{◌≡◌};
ghost use Rattle.drmaa_types.specs.Refusals.{first_refusal};
ghost use Rattle.std.specs.Map.{lookup};
ghost use Rattle.std.specs.Str.{bytes_eq};
ghost use Rattle.job_template.specs.Unsupported.{other_limit, other_limits, other_tests};

use drmaa_types::{Attribute, AttributeList, Refusal, Text, Which};

/// Refuses the first of the attributes that are set.
pub fn unsupported(others: &AttributeList) -> Option<Refusal>
    ensures { result ≡ first_refusal (other_tests others.now) }
{
    match others.as_slice().first() {
        Some(attribute) => Some(Refusal::UnsupportedAttribute(*attribute)),
        None => None,
    }
}

/// Why a limit of another name than WALLCLOCK_TIME is refused.
pub fn other_limit(name: &Text) -> Refusal
    ensures { result ≡ other_limit name.now }
{
    match attribute_of(name.as_str()) {
        Some(attribute) => Refusal::UnsupportedAttribute(attribute),
        None => Refusal::InvalidArgument(Which::ResourceLimits),
    }
}

/// The attribute of a limit's name. None exactly where there is no such limit.
fn attribute_of(name: &str) -> Option<Attribute>
    ensures { result ≡ lookup (bytes_eq name.now) other_limits }
{
    match name {
        "CORE_FILE_SIZE" => Some(Attribute::CoreFileSize),
        "CPU_TIME" => Some(Attribute::CpuTime),
        "DATA_SIZE" => Some(Attribute::DataSize),
        "FILE_SIZE" => Some(Attribute::FileSize),
        "OPEN_FILES" => Some(Attribute::OpenFiles),
        "STACK_SIZE" => Some(Attribute::StackSize),
        "VIRTUAL_MEMORY" => Some(Attribute::VirtualMemory),
        _ => None,
    }
}

//! Which texts may stand in a manifest, byte by byte.
//! Source: RFC 8259 section 7; Khronos Vulkan-Loader, LoaderDriverInterface.md and LoaderLayerInterface.md.
ghost use Rattle.std.specs.Prelude.{◌≡◌, length};
ghost use Rattle.std.specs.List.{list_all};
ghost use Rattle.manifest_reader.specs.Texts as texts;

/// The least byte that is no control character.
const LEAST_PLAIN: u8 = 0x20;
/// The least and the greatest byte of a visible character of ASCII.
const LEAST_VISIBLE: u8 = 0x21;

const MOST_VISIBLE: u8 = 0x7E;
/// The most bytes of a layer's name, one less than `VK_MAX_EXTENSION_NAME_SIZE`.
const LONGEST_NAME: usize = 255;
/// The most digits of one number of a version.
const LONGEST_NUMBER: usize = 9;
/// The most numbers of a version.
const MOST_NUMBERS: usize = 4;
/// What stands between two numbers of a version.
const FULL_STOP: u8 = b'.';

#[tactic(auto, unfolding(crate::specs::Texts::is_plain))]
pub(crate) fn is_plain(text: &str) -> bool
    ensures { result ≡ texts.is_plain text.now }
{
    text.as_bytes().iter().all(|byte| LEAST_PLAIN <= *byte)
}

#[tactic(auto, unfolding(crate::specs::Texts::is_filled))]
pub(crate) fn is_filled(text: &str) -> bool
    ensures { result ≡ texts.is_filled text.now }
{
    1 <= text.len() && is_plain(text)
}

#[tactic(auto, unfolding(crate::specs::Texts::is_visible))]
fn is_visible(text: &str) -> bool
    ensures { result ≡ texts.is_visible text.now }
{
    text.as_bytes()
        .iter()
        .all(|byte| LEAST_VISIBLE <= *byte && *byte <= MOST_VISIBLE)
}

#[tactic(auto, unfolding(crate::specs::Texts::is_name))]
pub(crate) fn is_name(text: &str) -> bool
    ensures { result ≡ texts.is_name text.now }
{
    1 <= text.len() && text.len() <= LONGEST_NAME && is_visible(text)
}

#[tactic(auto, unfolding(crate::specs::Texts::is_digits))]
fn is_digits(text: &[u8]) -> bool
    ensures { result ≡ texts.is_digits text.now }
{
    text.iter().all(|byte| byte.is_ascii_digit())
}

#[tactic(auto, unfolding(crate::specs::Texts::is_number))]
fn is_number(text: &[u8]) -> bool
    ensures { result ≡ texts.is_number text.now }
{
    1 <= text.len() && text.len() <= LONGEST_NUMBER && is_digits(text)
}

#[tactic(auto, unfolding(crate::specs::Texts::parts_of))]
fn count_parts(text: &[u8]) -> usize
    ensures { result ≡ length (texts.parts_of text.now) }
{
    text.split(|byte| *byte == FULL_STOP).count()
}

#[tactic(auto, unfolding(crate::specs::Texts::parts_of))]
fn has_numbers_alone(text: &[u8]) -> bool
    ensures { result ≡ list_all texts.is_number (texts.parts_of text.now) }
{
    text.split(|byte| *byte == FULL_STOP)
        .all(|part| is_number(part))
}

#[tactic(auto, unfolding(crate::specs::Texts::is_version))]
pub(crate) fn is_version(text: &str) -> bool
    ensures { result ≡ texts.is_version text.now }
{
    count_parts(text.as_bytes()) <= MOST_NUMBERS && has_numbers_alone(text.as_bytes())
}

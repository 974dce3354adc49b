// 1 to 4: the length, the mark, the version, setup and info.
ghost use Rattle.std.specs.Prelude.{◌≡◌, ◌≤◌, ◌<◌};
ghost use Rattle.records.specs.Sizes.{map_limit};
ghost use Rattle.accept.specs.Verdicts.{parts_judged, fields_judged, header_judged};

use judge::part_good;
use records::{Header, is_wide, version_good};
use refusals::Refusal;

// 4: setup, then info.
fn judge_parts(h: Header, used: usize) -> Result<(), Refusal>
    requires { used ≤ map_limit }
    ensures { result ≡ parts_judged h used }
{
    if !part_good(used, h.setup) {
        return Err(Refusal::BadPart {
            place: Header::SETUP as u32,
        });
    }
    if !part_good(used, h.info) {
        return Err(Refusal::BadPart {
            place: Header::INFO as u32,
        });
    }
    Ok(())
}

// 2: the mark. 3: the version. 4, which 9 to 11 do not have.
fn judge_fields(h: Header, used: usize) -> Result<(), Refusal>
    requires { used ≤ map_limit }
    ensures { result ≡ fields_judged h used }
{
    if h.mark != Header::MARK {
        return Err(Refusal::BadMark);
    }
    if !version_good(h) {
        return Err(Refusal::BadVersion);
    }
    if is_wide(h.version) {
        return Ok(());
    }
    judge_parts(h, used)
}

// 1: the length; then the header's fields.
pub fn judge_header(m: &[u8], used: usize) -> Result<(), Refusal>
    ensures { result ≡ header_judged m.now used }
{
    if used < Header::SIZE || Header::LIMIT < used || m.len() < used {
        return Err(Refusal::BadLength);
    }
    judge_fields(Header::of(m), used)
}

// The reader's view of a lent map: the slice and its checked length, together.
#![tactic(auto)]

ghost use Rattle.view.specs.Views.{Viewed, FoundIn, SearchedView};

use find::Listed;
use refusals::Refusal;
use windows::Window;

// The bytes, and the length of the map in them, checked against the limits and the buffer: 0, which no map has, where it is not good.
#[derive(Clone, Copy)]
pub struct MapView<'a> {
    pub bytes: &'a [u8],
    pub used: usize,
}

// The view of a lent map, with its length checked.
pub fn view<'a>(bytes: &'a [u8], used: usize) -> MapView<'a>
    ensures { Viewed bytes.entry used result }
{
    MapView {
        bytes,
        used: find::checked_length(bytes, used),
    }
}

// The search in a view.
pub fn find_in<'a, 'b>(
    v: MapView<'a>,
    window: Window,
    list: &'b mut [u32],
) -> Result<Listed, Refusal>
    ensures { FoundIn v.entry window list.old result list.new }
{
    find::search(v.bytes, v.used, window, list)
}

// A view made and searched. A length that is not good is searched as 0, and answered with 1.
pub fn search_view(
    bytes: &[u8],
    used: usize,
    window: Window,
    list: &mut [u32],
) -> Result<Listed, Refusal>
    ensures { SearchedView bytes.now used window list.old result list.new }
{
    find_in(view(bytes, used), window, list)
}

//! The frame that the places of a picture rest on: how high and how wide it is.

ghost use Rattle.std.specs.Prelude.{◌≡◌, ◌≤◌, ◌<◌, ◌*◌, ◌^◌, ◌/◌, ◌%◌, ◌+◌, ◌-◌, IfOk, length};
ghost use Rattle.pictures.specs.Layout.{band_height as height_of_band, bands_end as end_of_bands, bands_for as bands_of, cell_left as left_of_cell, cell_width as width_of_cell, frame_of, half_of, hub_y as y_of_hub, is_staggered as is_staggered_in, middle_end as end_of_middle, middle_top as top_of_middle, most_ends as most_of, canvas_height as height_of_paper, canvas_of, canvas_width as width_of_paper, rank_count as count_of_ranks, rank_of as the_rank, rank_y as y_of_rank, spread as the_spread, transit_y as y_of_transit};

use crate::stands::{Stand, end_count, heads_of};
use point_codes::PointCode;
use std::alloc::{AllocError, Global};
use std::marker::Model;

/// The canvas of a picture, in pixels.
#[derive(Clone, Copy)]
pub(crate) struct Canvas {
    /// How wide it is.
    pub(crate) width: u32,
    /// How high it is.
    pub(crate) height: u32,
}

/// The most end points that one of these pairs has.
fn most_ends(stands: &[Stand], hubs: &[PointCode]) -> usize
    requires { length stands.now ≤ 1024 }
    ensures value { result ≡ most_of stands.now hubs.now }
    ensures few { result ≤ 1024 }
{
    let mut most: usize = 0;
    for hub in hubs {
        most = most.max(end_count(stands, Some(*hub)));
    }
    most
}

/// How many bands of eight so many pairs fill.
fn bands_for(count: usize) -> usize
    requires { count ≤ 1024 }
    ensures value { result ≡ bands_of count }
    ensures few { result ≤ 128 }
{
    (count + 7) / 8
}

/// So many times a size.
fn times(count: usize, size: usize) -> usize
    requires few { count ≤ 1024 }
    requires short { size ≤ 8192 }
    ensures value { result ≡ count * size }
    ensures within { result ≤ 2 ^ 23 }
{
    count * size
}

/// The pairs of a picture, and how many end points they have.
#[derive(Drop)]
pub(crate) struct Frame {
    /// The pairs that have end points.
    hubs: Vec<PointCode>,
    /// The pairs that have none.
    transits: Vec<PointCode>,
    /// The most end points that a pair has.
    most: usize,
    /// How many end points belong to no pair.
    lone: usize,
}

impl Model for Frame {
    ghost use Rattle.pictures.specs.Layout.{FrameValue, IsFewIn};

    ghost Value = { FrameValue };

    ghost view = { λ f. record { hubs = f.hubs.items; transits = f.transits.items; most = f.most; lone = f.lone } };

    ghost invariant = { λ f. IsFewIn (record { hubs = f.hubs.items; transits = f.transits.items; most = f.most; lone = f.lone }) };
}

impl Frame {
    /// The frame of a network's points.
    pub(crate) fn of(alloc: Global, stands: &[Stand]) -> Result<Frame, AllocError>
        requires { length stands.now ≤ 1024 }
        ensures { IfOk result (λ f. f ≡ frame_of stands.now) }
    {
        let hubs = heads_of(alloc, stands, true)?;
        let transits = heads_of(alloc, stands, false)?;
        let most = most_ends(stands, &hubs);
        Ok(Frame {
            hubs,
            transits,
            most,
            lone: end_count(stands, None),
        })
    }

    /// The pairs that have end points.
    pub(crate) fn hubs(&self) -> &[PointCode]
        ensures pairs { result.now ≡ self.now.hubs }
        ensures few { length result.now ≤ 1024 }
    {
        &self.hubs
    }

    /// The pairs that have none.
    pub(crate) fn transits(&self) -> &[PointCode]
        ensures pairs { result.now ≡ self.now.transits }
        ensures few { length result.now ≤ 1024 }
    {
        &self.transits
    }

    /// How many pairs with end points stand above the middle.
    pub(crate) fn half(&self) -> usize
        ensures value { result ≡ half_of self.now }
        ensures few { result ≤ length self.now.hubs }
        ensures within { result ≤ 1024 }
    {
        (self.hubs.len() + 1) / 2
    }

    /// How many stand below it.
    pub(crate) fn rest(&self) -> usize
        ensures value { result ≡ length self.now.hubs - half_of self.now }
        ensures few { result ≤ 1024 }
    {
        self.hubs.len() - self.half()
    }

    /// Whether end points stand on more than one rank.
    fn is_staggered(&self) -> bool
        ensures { result ≡ is_staggered_in self.now }
    {
        self.most > 6
    }

    /// How many ranks there are.
    fn rank_count(&self) -> usize
        ensures value { result ≡ count_of_ranks self.now }
        ensures few { result ≤ 86 }
    {
        if self.is_staggered() {
            2 * ((self.most + 23) / 24)
        } else {
            1
        }
    }

    /// The rank of an end point among those of its pair.
    pub(crate) fn rank_of(&self, at: usize) -> usize
        requires { at ≤ 1024 }
        ensures value { result ≡ the_rank self.now at }
        ensures few { result ≤ 128 }
    {
        if self.is_staggered() {
            2 * (at / 24) + at % 2
        } else {
            0
        }
    }

    /// How high a band of pairs with end points is.
    fn band_height(&self) -> usize
        ensures value { result ≡ height_of_band self.now }
        ensures low { result ≤ 8192 }
    {
        440 + 72 * self.rank_count()
    }

    /// Where the middle begins.
    fn middle_top(&self) -> usize
        ensures value { result ≡ top_of_middle self.now }
        ensures low { result ≤ 2 ^ 24 }
    {
        100 + times(bands_for(self.half()), self.band_height())
    }

    /// Where the middle ends.
    fn middle_end(&self) -> usize
        ensures value { result ≡ end_of_middle self.now }
        ensures low { result ≤ 2 ^ 25 }
    {
        self.middle_top() + 190 * bands_for(self.transits.len())
    }

    /// Where all bands end.
    pub(crate) fn bands_end(&self) -> u32
        ensures value { result ≡ end_of_bands self.now }
        ensures low { result ≤ 2 ^ 26 }
    {
        (self.middle_end() + times(bands_for(self.rest()), self.band_height())) as u32
    }

    /// How high the picture is.
    fn canvas_height(&self) -> u32
        ensures { result ≡ height_of_paper self.now }
    {
        let rows = (self.lone + 11) / 12;
        self.bands_end() + 60 * rows as u32 + 20
    }

    /// How high the transfer points of a pair with end points stand.
    pub(crate) fn hub_y(&self, above: bool, at: usize) -> u32
        requires { at ≤ 1024 }
        ensures { result ≡ y_of_hub self.now above at }
    {
        let before = times(at / 8, self.band_height());
        if above {
            (100 + before + (288 + 72 * self.rank_count())) as u32
        } else {
            (self.middle_end() + before + 152) as u32
        }
    }

    /// How high a rank of its end points stands.
    pub(crate) fn rank_y(&self, above: bool, at: usize, rank: usize) -> u32
        requires at { at ≤ 1024 }
        requires rank { rank ≤ 128 }
        ensures { result ≡ y_of_rank self.now above at rank }
    {
        let before = times(at / 8, self.band_height());
        if above {
            (100 + before + (120 + 72 * self.rank_count().saturating_sub(rank + 1))) as u32
        } else {
            (self.middle_end() + before + (392 + 72 * rank)) as u32
        }
    }

    /// How high the transfer points of a pair in the middle stand.
    pub(crate) fn transit_y(&self, at: usize) -> u32
        requires { at ≤ 1024 }
        ensures { result ≡ y_of_transit self.now at }
    {
        (self.middle_top() + (190 * (at / 8) + 95)) as u32
    }

    /// How wide the place of a pair with end points is.
    pub(crate) fn cell_width(&self) -> usize
        ensures value { result ≡ width_of_cell self.now }
        ensures short { result ≤ 1134 }
        ensures wide { 450 ≤ result }
    {
        (46 * self.most.min(24) + 30).max(450)
    }

    /// How wide the picture is.
    fn canvas_width(&self) -> usize
        ensures value { result ≡ width_of_paper self.now }
        ensures low { result ≤ 16384 }
    {
        let hubs = times(self.half().min(8), self.cell_width());
        let transits = 300 * self.transits.len().min(8);
        hubs.max(transits).max(1200)
    }

    /// The canvas of the picture.
    pub(crate) fn canvas(&self) -> Canvas
        ensures { result ≡ canvas_of self.now }
    {
        Canvas {
            width: self.canvas_width() as u32,
            height: self.canvas_height(),
        }
    }

    /// Where the place of one of so many pairs begins, each so wide.
    pub(crate) fn cell_left(&self, wide: usize, at: usize, count: usize) -> usize
        requires wide { wide ≤ 1134 }
        requires at { at ≤ 1024 }
        requires count { count ≤ 1024 }
        ensures value { result ≡ left_of_cell self.now wide at count }
        ensures low { result ≤ 32768 }
    {
        let band = count.saturating_sub(8 * (at / 8)).min(8);
        let free = self.canvas_width().saturating_sub(times(band, wide));
        free / 2 + times(at % 8, wide)
    }

    /// How far so many columns of end points reach.
    pub(crate) fn spread(&self, columns: usize) -> usize
        requires { columns ≤ 24 }
        ensures value { result ≡ the_spread self.now columns }
        ensures low { result ≤ 1680 }
    {
        if self.is_staggered() {
            46 * columns
        } else {
            70 * columns
        }
    }
}

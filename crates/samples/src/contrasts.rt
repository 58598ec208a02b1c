// The contrast of a ruling: 255 less its grey where nothing beside it can be sampled, and otherwise
// the samples' entry at half their number.
use crate::{joining, show};
use std::io;

pub fn run(rt: &impl Print) -> io::Result<()> {
    no_samples(rt)?;
    two_samples(rt)
}

// Rows 3 to 6 away from row 1 are rows -5 to -2 and 4 to 7: a picture of four rows has none of them.
fn no_samples(rt: &impl Print) -> io::Result<()> {
    let raster = [55, 55, 55, 55, 55, 55, 55, 55];
    show(
        rt,
        "height 4, ruling on row 1, grey 55: no samples, contrast 200",
        contrast_of(&raster, 4) == Some(200.0),
    )
}

// Row 4 has 230 and 250, and the entry at half of two is the second: 250 less 55.
fn two_samples(rt: &impl Print) -> io::Result<()> {
    let raster = [55, 55, 55, 55, 55, 55, 55, 55, 230, 250];
    show(
        rt,
        "height 5: row 4 is sampled, 230 and 250 give 250, contrast 195",
        contrast_of(&raster, 5) == Some(195.0),
    )
}

// The contrast of the one ruling on row 1 of a picture two columns wide; none for any other answer.
fn contrast_of(raster: &[u8], h: usize) -> Option<f64> {
    let mut contrasts = [0.0; 4];
    let rulings = joining::join(
        raster,
        2,
        h,
        0.0,
        0.0,
        &[0, 1, 1, 1],
        &mut [0; 16],
        &mut contrasts,
    );
    if rulings == 1 {
        Some(contrasts[0])
    } else {
        None
    }
}

// An entry: what is kept of one displayed raster.
#[derive(Clone, Copy)]
pub struct Entry {
    // the number of marks
    pub count: u16,
    // the least and the greatest grey over code 5 cells; 255 and 0 where there is none
    pub least: u16,
    pub greatest: u16,
}

/// A layer of a layout, and a data type on it.
#[derive(Clone, Copy, Debug, PartialEq, Eq)]
pub struct Layer {
    /// LAYER, as an unsigned number (this project's profile).
    pub layer: u16,
    /// DATATYPE, as an unsigned number (this project's profile).
    pub data_type: u16,
}

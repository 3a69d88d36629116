//! The version of the programs.

/// What `--version` prints after the program's name. In brackets stands the toolchain, as `rt version`
/// printed it when this version was cut.
pub(crate) const VERSION: &str = "0.1.0 (rattle-kit-13f logic dac8208d650f15bf)";

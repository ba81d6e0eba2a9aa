// Rooms for the longest rolls. They are answered by functions, since the prover would count out an array made in place.

// For the bytes of the longest roll and some more.
pub fn buffer() -> [u8; 524300] {
    [0u8; 524300]
}

// For the longest text, the frame text of few characters too, and some more.
pub fn text_room() -> [u8; 1097800] {
    [0u8; 1097800]
}

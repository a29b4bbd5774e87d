//! An image in memory, which keeps words that are read.
ghost use Rattle.std.specs.Prelude.{◌≡◌, ◌⊎◌, ◌+◌, ◌≤◌, length};
ghost use Rattle.rom_recover.specs.Image.{PieceKept};

/// Keeps a piece from that place of an image on, unless the image has no word.
pub fn keep(image: &mut [u64], from: u64, piece: &[u64])
    requires room { (length image.old ≡ 0) ⊎ (from + length piece.now ≤ length image.old) }
    ensures { PieceKept from piece.now image.old image.new }
{
    if image.is_empty() {
        return;
    }
    let from = from as usize;
    image[from..from + piece.len()].copy_from_slice(piece);
}

// Turns into the ring's file, byte by byte.
ghost use Rattle.std.specs.Prelude.{◌≡◌, OnOk};
ghost use Rattle.ring.specs.Ring.{slots, store, stores};

use crate::end::End;
use crate::store::make;
use ringfile::{store, sync};
use std::fs::File;

// Store k of a record, in the image and then in the file.
fn put(file: &File, image: &mut [u8], rec: &[u8], k: usize) -> Result<(), End>
    ensures { OnOk result (image.new ≡ store slots image.old rec.now k) }
{
    let stored = make(image, rec, k)?;
    store(file, stored.place, stored.byte)?;
    Ok(())
}

// Adds a record by its 755 stores in order. Its bytes are on the disk before the head is stored, and the head before anything else. A turn is kept once
// its head is stored; what is answered of it then is what came of the sync behind that.
#[tactic(auto, using(crate::proofs::Made::stores_on, crate::proofs::Made::stores_last), unfolding(ring::specs::Ring::stores))]
pub fn keep(file: &File, image: &mut [u8], rec: &[u8]) -> Result<std::io::Result<()>, End>
    ensures { OnOk result (image.new ≡ stores slots image.old rec.now 755) }
{
    for k in 0..754 {
        put(file, image, rec, k)?;
    }
    sync(file)?;
    put(file, image, rec, 754)?;
    Ok(sync(file))
}

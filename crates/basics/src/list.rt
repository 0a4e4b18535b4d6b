// Lent lists of words.
ghost use Rattle.std.specs.Prelude.{◌≡◌, set};

// Stores a word at a place of a list, where the list goes so far.
pub fn put(list: &mut [u16], at: usize, word: u16)
    ensures { list.new ≡ set list.old at word }
{
    if at < list.len() {
        list[at] = word;
    }
}

// Laws of the table's words, which hold whatever its sizes.
ghost use Rattle.std.specs.Prelude.{◌≡◌, ℕ, ◌<◌, ◌≤◌};
ghost use Rattle.dbp_slots.specs.TableWords.{address_of, IsWord, IsWordAt, Sizes, TableWord, word_count};

/// Each word of the table stands after word 0, at an address below the number of words.
pub fn words_are_in_the_table()
    ensures { (s : Sizes) (w : TableWord) → IsWord s w
        → (1 ≤ address_of s w) × (address_of s w < word_count s) }
{}

/// No two words of the table have one address.
pub fn no_two_words_share_an_address()
    ensures { (s : Sizes) (v w : TableWord) → IsWord s v → IsWord s w
        → address_of s v ≡ address_of s w → v ≡ w }
{}

/// Each address after word 0, and below the number of words, is that of a word of the table.
pub fn each_address_has_its_word()
    ensures { (s : Sizes) (address : ℕ) → 1 ≤ address → address < word_count s
        → (w : TableWord) × IsWordAt s address w }
{}

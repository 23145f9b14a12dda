// A rising list of words in the first places of an array, each word once.
ghost use Rattle.std.specs.Prelude.{◌≡◌, ◌∷◌, ◌<◌, ◌≤◌, length, take, drop};
ghost use Rattle.std.proofs.lemmas.List.Edits.{sets};
ghost use Rattle.layout.specs.Lists.{insert, written};
ghost use Rattle.paths.specs.Rising.{Placed, Words};

// Where v belongs among the first n words.
fn place_of(words: &[u64], n: u64, v: u64) -> u64
    requires { n ≤ length words.now }
    ensures { Placed words.now n v result }
{
    for k in 0..n {
        if v <= words[k as usize] {
            return k;
        }
    }
    n
}

// Puts v at place k, and moves what stands there and after it up by one.
fn move_up(words: &mut [u64], n: u64, k: u64, v: u64)
    requires { (k ≤ n) × (n < length words.old) }
    ensures { words.new ≡ sets words.old k (v ∷ drop k (take n words.old)) }
{
    let place = k as usize;
    words.copy_within(place..n as usize, place + 1);
    words[place] = v;
}

// Inserts v, unless it is there: how many words there are then.
pub(crate) fn insert_word(words: &mut [u64], n: u64, v: u64) -> u64
    requires { n < length words.old }
    ensures { Words words.new (insert v (take n words.old)) result }
{
    let k = place_of(words, n, v);
    if k < n {
        let place = k as usize;
        if words[place] == v {
            return n;
        }
    }
    move_up(words, n, k, v);
    n + 1
}

// Copies the first n words; places beyond aren't written.
pub(crate) fn copy_words(words: &[u64], list: &mut [u64], n: u64)
    requires { (n ≤ length words.now) × (n ≤ length list.old) }
    ensures { list.new ≡ written (take n words.now) list.old }
{
    let found = n as usize;
    list[..found].copy_from_slice(&words[..found]);
}

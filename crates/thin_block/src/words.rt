//! Defines the type `Word`. A value of this type is one word: it consists of one or more items,
//! and has the alignment of a block. If the items of a block form words, the allocator treats the
//! block as an array of words.
ghost use Rattle.std.specs.Prelude.{◌≡◌, ◌*◌, ◌^◌, ◌<◌, List, length};
ghost use Rattle.std.specs.Mem.{type_size};
ghost use types.Logic.{sem};
ghost use Rattle.thin_block.specs.Words.{chunks_from, words_from};
ghost use Rattle.thin_block.specs.contracts.words.Word.{the_row};

// `M` items, with the alignment of a block.
pub(crate) struct Word<T, const M: usize> {
    pub(crate) items: [T; M],
    pub(crate) aligned: [u64; 0],
}

// Converts `count` arrays of `M` items into `count` words, in place. `items` points to the first
// array. LLVM optimizes the loop away.
pub(crate) unsafe fn make_words<T, const M: usize>(items: *mut [T; M], count: usize)
    ghost chunks: { List (List T) }
    requires count { length chunks ≡ count }
    requires no_padding { type_size (the_row T.row M.row) ≡ M * type_size T.row }
    requires fits_usize { count * (M * type_size T.row) < 2 ^ 64 }
    requires* memory { sem 𝓛 (chunks_from T.row M.row chunks items) }
    ensures* memory { sem 𝓛 (words_from T.row M.row chunks items) }
{
    let mut i = 0;
    while i < count {
        unsafe {
            let chunk = items.add(i);
            let word = Word {
                items: chunk.read(),
                aligned: [],
            };
            (chunk as *mut Word<T, M>).write(word);
        }
        i += 1;
    }
}

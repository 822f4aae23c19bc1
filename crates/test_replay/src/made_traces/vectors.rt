//! Texts that a second generator wrote, which was made from the words of the format alone.

/// The header lines behind the first three.
pub const HEAD: &str = "\
clock 1 1073741824
zone alpha 64 1024 16 0 0 plain
zone beta 32 1024 16 0 0 plain
zone gamma 64 1024 16 0 0 smr
names dir 64 64 16
";

const ONE_STEP: &str = "\
alloc 0 gamma 0
end
";

const FREES: &str = "\
alloc 0 beta 0
free 0 0
look 0 208
alloc 0 alpha 0
alloc 0 gamma 1
free 0 1
alloc 0 alpha 1
free 0 0
unbind 0 106
look 0 54
free 0 1
look 0 113
end
";

const ROUND_ALONE: &str = "\
bind 0 9 3900735936
alloc 0 alpha 0
free 0 0
look 0 118
unbind 0 121
look 0 242
alloc 0 beta 0
round
free 0 0
alloc 0 gamma 0
end
";

const NOTHING_GIVEN: &str = "\
bind 0 96 2486251259
alloc 1 gamma 0
free 1 0
alloc 1 alpha 0
look 1 48
alloc 1 gamma 1
round
look 1 23
end
";

const TWO_GIVES: &str = "\
look 0 125
alloc 0 alpha 0
alloc 0 gamma 1
look 0 189
bind 0 126 2180371964
alloc 0 beta 2
look 0 4
alloc 0 gamma 3
alloc 0 gamma 4
free 0 4
bind 0 198 696171428
free 0 3
bind 0 204 2983927661
look 0 181
alloc 1 alpha 0
free 1 0
look 1 147
look 1 31
alloc 1 alpha 0
free 1 0
alloc 1 gamma 0
look 1 97
free 1 0
alloc 1 gamma 0
alloc 1 alpha 1
free 1 0
look 1 158
free 1 1
round
give 0 0 1 0
unbind 0 205
bind 0 183 4250230797
alloc 0 alpha 0
alloc 0 beta 3
look 0 24
alloc 0 alpha 4
alloc 0 alpha 5
bind 0 35 4274225325
bind 0 158 4080198528
free 0 3
free 0 5
alloc 0 gamma 3
alloc 0 alpha 5
free 1 0
look 1 97
look 1 250
unbind 1 124
look 1 55
alloc 1 gamma 0
alloc 1 gamma 1
alloc 1 gamma 2
free 1 2
free 1 1
alloc 1 gamma 1
alloc 1 gamma 2
alloc 1 alpha 3
look 1 16
round
give 0 0 1 4
alloc 0 gamma 0
look 0 99
free 1 4
end
";

const LEAST_SEED: &str = "\
look 0 154
look 0 255
look 0 252
look 0 220
look 0 151
alloc 0 gamma 0
free 0 0
look 0 68
look 0 130
look 0 132
alloc 0 beta 0
alloc 0 alpha 1
alloc 1 beta 0
free 1 0
look 1 195
alloc 1 gamma 0
free 1 0
alloc 1 alpha 0
look 1 103
alloc 1 beta 1
end
";

const THREE_WORKERS: &str = "\
look 0 159
alloc 0 alpha 0
free 0 0
alloc 0 gamma 0
free 0 0
unbind 0 154
look 0 222
look 0 81
look 0 203
look 0 213
alloc 1 beta 0
free 1 0
alloc 1 alpha 0
free 1 0
look 1 153
look 1 79
bind 1 193 3089456633
alloc 2 alpha 0
alloc 2 gamma 1
alloc 2 beta 2
look 2 122
look 2 37
bind 2 45 1831573377
alloc 2 alpha 3
end
";

const GREATEST_SEED: &str = "\
look 0 37
alloc 0 gamma 0
look 0 104
free 0 0
alloc 1 alpha 0
alloc 1 alpha 1
look 1 1
free 1 0
free 1 1
look 1 151
alloc 2 beta 0
free 2 0
look 2 92
look 2 139
look 2 225
look 2 67
look 3 20
look 3 212
look 3 140
look 3 228
unbind 3 180
look 3 136
look 3 186
alloc 3 gamma 0
end
";

const FIVE_WORKERS: &str = "\
bind 0 203 2294437240
look 0 175
alloc 0 beta 0
alloc 0 beta 1
free 0 0
alloc 1 beta 0
alloc 1 beta 1
look 1 228
look 2 24
look 2 45
alloc 3 alpha 0
alloc 3 gamma 1
free 3 1
look 4 78
look 4 80
look 4 197
end
";

const SIXTEEN_WORKERS: &str = "\
look 0 74
look 1 87
look 2 44
look 3 119
look 4 18
look 5 145
look 6 172
look 6 231
alloc 6 beta 0
free 6 0
alloc 7 gamma 0
alloc 7 beta 1
look 8 72
look 8 144
look 9 166
alloc 9 beta 0
alloc 10 beta 0
unbind 10 119
free 10 0
look 12 179
alloc 14 gamma 0
free 14 0
look 15 64
alloc 15 beta 0
end
";

/// A seed, workers, steps, the first lines, and the lines behind the header.
pub type Row = (u64, u32, u32, &'static str, &'static str);

pub fn rows() -> [Row; 10] {
    [
        (7, 1, 1, "uma 1\nworkers 1\ndomains 1\n", ONE_STEP),
        (1, 1, 12, "uma 1\nworkers 1\ndomains 1\n", FREES),
        (237, 1, 10, "uma 1\nworkers 1\ndomains 1\n", ROUND_ALONE),
        (180, 2, 8, "uma 1\nworkers 2\ndomains 2\n", NOTHING_GIVEN),
        (42, 2, 60, "uma 1\nworkers 2\ndomains 2\n", TWO_GIVES),
        (0, 2, 20, "uma 1\nworkers 2\ndomains 2\n", LEAST_SEED),
        (3, 3, 24, "uma 1\nworkers 3\ndomains 2\n", THREE_WORKERS),
        (
            18446744073709551615,
            4,
            24,
            "uma 1\nworkers 4\ndomains 2\n",
            GREATEST_SEED,
        ),
        (
            9223372036854775808,
            5,
            16,
            "uma 1\nworkers 5\ndomains 2\n",
            FIVE_WORKERS,
        ),
        (
            12345678901234567890,
            16,
            24,
            "uma 1\nworkers 16\ndomains 2\n",
            SIXTEEN_WORKERS,
        ),
    ]
}

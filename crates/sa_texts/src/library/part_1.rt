//! Part 2 of the files of lib/.

/// The texts of this part, each behind the words that ask for it.
pub(crate) const FILES_1: [(&str, &str, &str, &str); 1] = [("flt", "flt.sa", "flt.sa", FLT)];

const FLT: &str =
    r#"-- FLT: numbers with a point, of about seven digits, from 1.4e-45 to 3.4028235e38: the single precision of IEEE 754, by whole-number
-- arithmetic. Sums, products, quotients and roots are rounded to the nearest number, of two equally near ones to the even one. Nothing is a
-- fault but `int` and its like of what no INT holds: a quotient by 0 is infinite, and 0/0 is no number. Each result takes 16 bytes.
-- flt_text.sa stands beside this file.
--
--    third ::= #FLT(1) / #FLT(3);
--    #OUT + third + " " + third * #FLT(3) + " " + FLT::of("1.5") + "\n";                -- 0.33333334 1 1.5
--    #OUT + third.str(2) + " " + #FLT("2").sqrt + " " + #FLT("-2.5e3").int + "\n";      -- 0.33 1.4142135 -2500
immutable class FLT < $STR, $IS_EQ is
   private const sign_bit:INT := -2147483647 - 1;
   private const lead_bit:INT := 0x800000;
   private const inf_bits:INT := 0x7f800000;
   private const nan_bits:INT := 0x7fc00000;

   -- The number as IEEE 754 has it: the sign, eight bits of an exponent, and 23 of a fraction.
   readonly attr bits:INT;
   of_bits(bits:INT):SAME post result.bits = bits is number:SAME; return number.bits(bits); end;

   -- The number of an INT, and that of an INT times 2 ^ exp, both rounded.
   create(i:INT):SAME is return of(i); end;
   of(i:INT):SAME is return of(i, 0); end;
   of(i, exp:INT):SAME pre exp >= -100000 and exp <= 100000 is
      if i = sign_bit then return -packed(false, exp + 158, 0x20000000); end;
      return packed(i < 0, exp + 156, i.abs);
   end;

   -- The number of a text, rounded: digits, perhaps with a sign, a point among them, and `e` with an exponent; or NaN, Inf or -Inf. A text
   -- that is none is raised, in a sentence.
   create(s:STR):SAME is return of(s); end;
   of(s:STR):SAME is return FLT_TEXT::of(s); end;

   -- No number, the infinite one, and two that have names.
   nan:SAME is return of_bits(nan_bits); end;
   inf:SAME is return of_bits(inf_bits); end;
   pi:SAME is return of_bits(0x40490fdb); end;
   e:SAME is return of_bits(0x402df854); end;

   -- Whether it is no number, infinite, one of the two zeros, and whether its sign is `-`.
   is_nan:BOOL is return bits.band(0x7fffffff) > inf_bits; end;
   is_inf:BOOL is return bits.band(0x7fffffff) = inf_bits; end;
   is_zero:BOOL is return bits.band(0x7fffffff) = 0; end;
   is_below:BOOL is return bits < 0; end;

   -- The sum and the difference.
   plus(other:SAME):SAME is return sum(other, other.is_below); end;
   minus(other:SAME):SAME is return sum(other, ~other.is_below); end;
   private sum(other:SAME, other_below:BOOL):SAME is
      if is_nan or other.is_nan or (is_inf and other.is_inf and is_below /= other_below) then return nan; end;
      if is_inf then return self; elsif other.is_inf then return signed(other_below, inf_bits); end;
      exp, sig, other_exp, other_sig:INT;
      unpack(out exp, out sig); other.unpack(out other_exp, out other_sig);
      sig := jammed(sig * 64, other_exp - exp); other_sig := jammed(other_sig * 64, exp - other_exp);
      exp := exp.max(other_exp);
      if is_below = other_below then return packed(is_below, exp, sig + other_sig);
      elsif sig > other_sig then return packed(is_below, exp, sig - other_sig);
      end;
      return packed(other_below and sig < other_sig, exp, other_sig - sig);
   end;

   -- The product, of halves of twelve bits.
   times(other:SAME):SAME is
      has_sign ::= is_below /= other.is_below;
      if is_nan or other.is_nan or (is_inf and other.is_zero) or (is_zero and other.is_inf) then return nan; end;
      if is_inf or other.is_inf then return signed(has_sign, inf_bits); elsif is_zero or other.is_zero then return signed(has_sign, 0); end;
      exp, a, other_exp, b:INT;
      unpack_whole(out exp, out a); other.unpack_whole(out other_exp, out b);
      middle ::= a / 4096 * (b % 4096) + a % 4096 * (b / 4096);
      low ::= middle % 64 * 4096 + a % 4096 * (b % 4096);
      high ::= a / 4096 * (b / 4096) * 64 + middle / 64 + low / 262144;
      return packed(has_sign, exp + other_exp - 126, marked(high, low % 262144));
   end;

   -- The quotient, in digits of six bits.
   div(other:SAME):SAME is
      has_sign ::= is_below /= other.is_below;
      if is_nan or other.is_nan or (is_inf and other.is_inf) or (is_zero and other.is_zero) then return nan; end;
      if is_inf or other.is_zero then return signed(has_sign, inf_bits); elsif is_zero or other.is_inf then return signed(has_sign, 0); end;
      exp, rest, other_exp, by:INT;
      unpack_whole(out exp, out rest); other.unpack_whole(out other_exp, out by);
      if rest < by then rest := rest * 2; exp := exp - 1; end;
      quotient ::= 1; rest := rest - by;
      loop 4.times!; quotient := quotient * 64 + rest * 64 / by; rest := rest * 64 % by; end;
      quotient := quotient * 32 + rest * 32 / by; rest := rest * 32 % by;
      return packed(has_sign, exp - other_exp + 127, marked(quotient, rest));
   end;

   -- The square root, bit by bit; no number of what is below 0.
   sqrt:SAME is
      if is_nan or (is_below and ~is_zero) then return nan; elsif is_zero or is_inf then return self; end;
      exp, sig:INT;
      unpack_whole(out exp, out sig);
      if exp % 2 = 0 then sig := sig * 4; exp := exp - 1; else sig := sig * 2; end;
      root ::= 0; rest ::= 0;
      loop
         rest := rest * 4 + pairs!(sig);
         root := root * 2;
         if rest > root * 2 then rest := rest - root * 2 - 1; root := root + 1; end;
      end;
      return packed(false, (exp - 127) / 2 + 127, marked(root * 16, rest));
   end;

   -- The number with the other sign, and the amount.
   negate:SAME is return of_bits(bits.bxor(sign_bit)); end;
   abs:SAME is return of_bits(bits.band(0x7fffffff)); end;

   -- The power to a whole number, by products that are rounded each.
   pow(n:INT):SAME is
      if n < 0 then return of(1) / pow(-n); end;
      power ::= of(1); factor ::= self;
      loop
         while!(n > 0);
         if n % 2 = 1 then power := power * factor; end;
         factor := factor * factor; n := n / 2;
      end;
      return power;
   end;

   -- Whether the two are equal, and so on: all but `/=` are false where one is no number. The two zeros are equal.
   is_eq(other:SAME):BOOL is return ~is_nan and ~other.is_nan and (bits = other.bits or (is_zero and other.is_zero)); end;
   is_eq(other:$OB):BOOL is typecase other when FLT then return is_eq(other); else return false; end; end;
   is_neq(other:SAME):BOOL is return ~is_eq(other); end;
   is_lt(other:SAME):BOOL is
      if is_nan or other.is_nan or (is_zero and other.is_zero) then return false; end;
      if is_below then return ~other.is_below or bits > other.bits; end;
      return ~other.is_below and bits < other.bits;
   end;
   is_gt(other:SAME):BOOL is return other.is_lt(self); end;
   is_leq(other:SAME):BOOL is return is_lt(other) or is_eq(other); end;
   is_geq(other:SAME):BOOL is return other.is_lt(self) or is_eq(other); end;

   -- The lesser and the greater of the two; this one where they can't be compared.
   min(other:SAME):SAME is if other.is_lt(self) then return other; end; return self; end;
   max(other:SAME):SAME is if is_lt(other) then return other; end; return self; end;

   -- The number before the point, by two names; `overflow` where no INT holds it. It is made below 0, where there is one more than above.
   truncate:INT is return int; end;
   int:INT is
      exp, sig, whole:INT;
      unpack(out exp, out sig);
      if exp >= 150 then whole := -sig * 2.pow(exp - 150); elsif exp > 126 then whole := -(sig / 2.pow(150 - exp)); end;
      if is_below then return whole; end;
      return -whole;
   end;

   -- The greatest INT that isn't above it, the least that isn't below it, and the nearest; of two equally near ones that further from 0.
   floor:INT is if of(int) > self then return int - 1; end; return int; end;
   ceiling:INT is if of(int) < self then return int + 1; end; return int; end;
   round:INT is
      if (self - of(int)).abs < of_bits(126 * lead_bit) then return int; elsif is_below then return int - 1; end;
      return int + 1;
   end;

   -- The fewest digits of the number, rounded to so many, from which `of` makes it again; with an exponent below 0.00001 and from a
   -- thousand millions on.
   str:STR is return FLT_TEXT::str(self); end;

   -- The number rounded to n digits behind the point, with all of them; what is in the middle goes to the even digit.
   str(n:INT):STR pre n >= 0 is return FLT_TEXT::str(self, n); end;

   -- The amount of a finite number as an INT times 2 ^ exp.
   parts(out exp:INT):INT is
      sig:INT;
      unpack(out exp, out sig);
      exp := exp - 150;
      return sig;
   end;

   private signed(is_below:BOOL, bits:INT):SAME is if is_below then return of_bits(bits.bor(sign_bit)); end; return of_bits(bits); end;

   -- The amount of a finite number is `sig` times 2 ^ (exp - 150); where it is whole, and not 0, `sig` has 24 bits.
   private unpack(out exp, sig:INT) is
      exp := bits.band(0x7fffffff) / lead_bit; sig := bits.band(lead_bit - 1);
      if exp = 0 then exp := 1; else sig := sig + lead_bit; end;
   end;
   private unpack_whole(out exp, sig:INT) is
      unpack(out exp, out sig);
      loop while!(sig < lead_bit); sig := sig * 2; exp := exp - 1; end;
   end;

   -- The number nearest to `sig` times 2 ^ (exp - 156). The last bit of `sig`, which is lost, may stand for all behind it.
   private packed(is_below:BOOL, exp, sig:INT):SAME pre sig >= 0 is
      if sig = 0 then return signed(is_below, 0); end;
      loop while!(sig < 0x20000000); sig := sig * 2; exp := exp - 1; end;
      if sig >= 0x40000000 then sig := jammed(sig, 1); exp := exp + 1; end;
      if exp > 254 then return signed(is_below, inf_bits); end;
      sig := jammed(sig, 1 - exp);
      whole ::= sig / 64; rest ::= sig % 64;
      if rest > 32 or (rest = 32 and whole % 2 = 1) then whole := whole + 1; end;
      return signed(is_below, (exp.max(1) - 1) * lead_bit + whole);
   end;

   -- A number of bits without its last n, of which the last one that is left tells whether one was set; itself where n is 0 or below.
   private jammed(sig, n:INT):INT pre sig >= 0 is
      if n <= 0 then return sig; elsif n > 30 then return marked(0, sig); end;
      power ::= 2.pow(n);
      return marked(sig / power, sig % power);
   end;
   private marked(sig, rest:INT):INT is if rest /= 0 then return sig.bor(1); end; return sig; end;

   -- The pairs of bits of a number of 26 bits, and 13 pairs of zeros.
   private pairs!(once i:INT):INT is
      loop yield i / 4.pow(12.downto!(0)) % 4; end;
      loop 13.times!; yield 0; end;
   end;
end;
"#;

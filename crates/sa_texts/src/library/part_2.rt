//! Part 3 of the files of lib/.

/// The texts of this part, each behind the words that ask for it.
pub(crate) const FILES_2: [(&str, &str, &str, &str); 1] = [(
    "flt_text",
    "flt_text.sa",
    "flt_text.sa",
    FLT_TEXT,
)];

const FLT_TEXT: &str =
    r#"-- FLT_TEXT and FLT_DECIMAL: the texts of FLT, of flt.sa. flt.sa stands beside this file.
--
--    #OUT + FLT_TEXT::of("0.1") + " " + FLT_TEXT::str(FLT::of("0.1"), 20) + "\n";        -- 0.1 0.10000000149011611938
class FLT_TEXT is
   -- The number of a text, rounded: digits, perhaps with a sign, a point among them, and `e` with an exponent; or NaN, Inf or -Inf. A text
   -- that is none is raised, in a sentence.
   of(s:STR):FLT is
      if s = "NaN" then return FLT::nan; elsif s = "Inf" then return FLT::inf; elsif s = "-Inf" then return -FLT::inf; end;
      digits ::= #FLIST{CHAR}; point ::= -1; place ::= 0;
      if s.size > 0 and (s[0] = '-' or s[0] = '+') then place := 1; end;
      loop
         while!(place < s.size and ((s[place] >= '0' and s[place] <= '9') or (s[place] = '.' and point < 0)));
         if s[place] = '.' then point := digits.size; else digits.push(s[place]); end;
         place := place + 1;
      end;
      if point < 0 then point := digits.size; end;
      if digits.size = 0 or (place < s.size and s[place] /= 'e' and s[place] /= 'E') then raise "not a number: " + s; end;
      if place < s.size then point := point + exponent(s, place + 1); end;
      number ::= nearest(STR::of(digits.store, digits.size), point);
      if s[0] = '-' then return -number; end;
      return number;
   end;

   -- The fewest digits of the number, rounded to so many, from which `of` makes it again; with an exponent below 0.00001 and from a
   -- thousand millions on.
   str(x:FLT):STR is
      if x.is_nan then return "NaN"; end;
      sign ::= "";
      if x.is_below then sign := "-"; end;
      if x.is_inf then return sign + "Inf"; elsif x.is_zero then return sign + "0"; end;
      exact ::= decimal(x); first ::= 0; least ::= 1; exp, point:INT;
      loop while!(exact.digit(first) = 0); first := first + 1; end;
      -- More digits come nearer: where six don't tell it from others fewer don't, but for a power of 2, which has nearer ones below it.
      if x.parts(out exp) /= 0x800000 and nearest(shortened(exact, first + 6, out point), point) /= x.abs then least := 7; end;
      loop
         digits ::= shortened(exact, first + least.upto!(9), out point);
         if nearest(digits, point) = x.abs then return sign + exact.shown(digits, point); end;
      end;
      raise "nine digits tell all numbers apart";
   end;

   -- The number rounded to n digits behind the point, with all of them; what is in the middle goes to the even digit.
   str(x:FLT, n:INT):STR pre n >= 0 is
      if x.is_nan or x.is_inf then return str(x); end;
      exact ::= decimal(x);
      digits ::= exact.rounded(exact.point + n);
      first ::= 0;
      loop while!(first < exact.point - 1 and digits[first] = '0'); first := first + 1; end;
      text ::= digits.substring(first, exact.point - first);
      if n > 0 then text := text + "." + digits.substring(exact.point, n); end;
      if x.is_below and ~is_zero(digits) then return "-" + text; end;
      return text;
   end;

   -- The number of the digits behind the `e` of a text.
   private exponent(s:STR, place:INT):INT is
      start ::= place; exponent ::= 0;
      if place < s.size and (s[place] = '-' or s[place] = '+') then start := place + 1; end;
      if start >= s.size then raise "not a number: " + s; end;
      loop
         c ::= s[start.upto!(s.size - 1)];
         if c < '0' or c > '9' then raise "not a number: " + s; end;
         exponent := (exponent * 10 + c.int - '0'.int).min(1000000);
      end;
      if s[place] = '-' then return -exponent; end;
      return exponent;
   end;

   -- The number nearest to that of decimal digits, of which so many stand before the point. Seven digits and a power of ten up to the ninth
   -- are exact, so that their product or quotient is rounded once.
   private nearest(digits:STR, point:INT):FLT is
      first ::= 0; stop ::= digits.size;
      loop while!(first < stop and digits[first] = '0'); first := first + 1; end;
      loop while!(first < stop and digits[stop - 1] = '0'); stop := stop - 1; end;
      if first = stop or point - first < -46 then return FLT::of(0); elsif point - first > 39 then return FLT::inf; end;
      if stop - first <= 7 and (point - stop).abs <= 9 then
         whole ::= 0;
         loop whole := whole * 10 + digits[first.upto!(stop - 1)].int - '0'.int; end;
         if point >= stop then return FLT::of(whole) * FLT::of(10.pow(point - stop)); end;
         return FLT::of(whole) / FLT::of(10.pow(stop - point));
      end;
      exp, sig:INT;
      #FLT_DECIMAL(digits.substring(first, stop - first), point - first).binary(out exp, out sig);
      return FLT::of(sig, exp);
   end;

   -- The amount in decimal digits.
   private decimal(x:FLT):FLT_DECIMAL is
      exp:INT; digits ::= x.parts(out exp).str;
      exact ::= #FLT_DECIMAL(digits, digits.size);
      exact.scale(exp);
      return exact;
   end;

   -- The first n digits of a number, rounded, without zeros at their ends, and how many of them stand before the point.
   private shortened(exact:FLT_DECIMAL, n:INT, out point:INT):STR is
      digits ::= exact.rounded(n); start ::= 0; stop ::= n;
      loop while!(digits[start] = '0'); start := start + 1; end;
      loop while!(digits[stop - 1] = '0'); stop := stop - 1; end;
      point := exact.point - start;
      return digits.substring(start, stop - start);
   end;

   private is_zero(digits:STR):BOOL is loop if digits.elt! /= '0' then return false; end; end; return true; end;
end;

-- What FLT_TEXT counts in: an exact number from 0 on, four digits to a limb. Those before the point begin with the lowest, and those
-- behind it with the highest.
class FLT_DECIMAL is
   private attr whole, part:FLIST{INT};

   -- The number of digits, of which so many stand before the point.
   create(digits:STR, point:INT):SAME is
      number ::= new;
      number.whole := #FLIST{INT}; number.part := #FLIST{INT};
      loop number.whole.push(limb(digits, point - 4 * 1.upto!((point + 3) / 4))); end;
      loop number.part.push(limb(digits, point + 4 * 0.upto!((digits.size - point + 3) / 4 - 1))); end;
      return number;
   end;

   -- How many digits stand before the point, and the digit at a place; 0 behind the last one.
   point:INT is return 4 * whole.size + 1; end;
   digit(place:INT):INT is
      if place = 0 then return 0; end;
      limb ::= (place - 1) / 4; power ::= 10.pow(3 - (place - 1) % 4);
      if limb < whole.size then return whole[whole.size - 1 - limb] / power % 10; end;
      if limb < whole.size + part.size then return part[limb - whole.size] / power % 10; end;
      return 0;
   end;

   -- The first n digits, of which the first is a 0 for what is carried, rounded; what is in the middle goes to the even digit.
   rounded(n:INT):STR pre n > 0 is
      digits ::= #ARRAY{CHAR}(n);
      loop place ::= 0.upto!(n - 1); digits[place] := (digit(place) + '0'.int).char; end;
      if ~goes_up(n) then return STR::of(digits, n); end;
      last ::= n - 1;
      loop while!(digits[last] = '9'); digits[last] := '0'; last := last - 1; end;
      digits[last] := (digits[last].int + 1).char;
      return STR::of(digits, n);
   end;

   -- Digits of which so many stand before the point, as one writes them.
   shown(digits:STR, point:INT):STR is
      if point > 9 or point < -4 then
         if digits.size > 1 then digits := digits.substring(0, 1) + "." + digits.substring(1, digits.size - 1); end;
         return digits + "e" + (point - 1);
      end;
      if point <= 0 then return "0." + "0000".substring(0, -point) + digits; end;
      if point >= digits.size then return digits + "00000000".substring(0, point - digits.size); end;
      return digits.substring(0, point) + "." + digits.substring(point, digits.size - point);
   end;

   -- Multiplies by 2 ^ n.
   scale(n:INT) is
      loop while!(n >= 16); times(65536); n := n - 16; end;
      loop while!(n <= -16); div(65536); n := n + 16; end;
      if n > 0 then times(2.pow(n)); elsif n < 0 then div(2.pow(-n)); end;
   end;

   -- The number, which isn't 0, as `sig` times 2 ^ exp, where `sig` has 30 bits and the last one stands for all behind it.
   binary(out exp, sig:INT) is
      exp := -4;
      loop while!(whole.size > 2); scale(-16); exp := exp + 16; end;
      loop while!(int < 512); scale(16); exp := exp - 16; end;
      amount ::= int; shift ::= 0;
      loop while!(amount < 0x2000000); amount := amount * 2; shift := shift + 1; end;
      loop while!(amount >= 0x4000000); amount := amount / 2; shift := shift - 1; end;
      scale(shift);
      exp := exp - shift; sig := int * 16;
      loop if part.elt! > 0 then sig := sig.bor(1); end; end;
   end;

   -- The limb that begins at a place of digits.
   private limb(digits:STR, start:INT):INT is
      limb ::= 0;
      loop
         place ::= start.upto!(start + 3);
         limb := limb * 10;
         if place >= 0 and place < digits.size then limb := limb + digits[place].int - '0'.int; end;
      end;
      return limb;
   end;

   -- Whether the digits from a place on are more than half of one before them, or just half, and that one is odd.
   private goes_up(place:INT):BOOL is
      if digit(place) /= 5 then return digit(place) > 5; end;
      loop if digit((place + 1).upto!(4 * (whole.size + part.size))) > 0 then return true; end; end;
      return digit(place - 1) % 2 = 1;
   end;

   private int:INT is
      int ::= 0;
      loop limb ::= whole[(whole.size - 1).downto!(0)]; int := int * 10000 + limb; end;
      return int;
   end;

   private times(factor:INT) is
      carry ::= 0;
      loop
         place ::= (part.size - 1).downto!(0);
         carry := carry + part[place] * factor; part[place] := carry % 10000; carry := carry / 10000;
      end;
      loop
         place ::= 0.upto!(whole.size - 1);
         carry := carry + whole[place] * factor; whole[place] := carry % 10000; carry := carry / 10000;
      end;
      loop while!(carry > 0); whole.push(carry % 10000); carry := carry / 10000; end;
      trim(part);
   end;

   private div(by:INT) is
      rest ::= 0;
      loop
         place ::= (whole.size - 1).downto!(0);
         rest := rest * 10000 + whole[place]; whole[place] := rest / by; rest := rest % by;
      end;
      trim(whole);
      loop
         place ::= 0.upto!(part.size - 1);
         rest := rest * 10000 + part[place]; part[place] := rest / by; rest := rest % by;
      end;
      loop while!(rest > 0); part.push(rest * 10000 / by); rest := rest * 10000 % by; end;
   end;

   -- Takes the last limbs out that are 0.
   private trim(limbs:FLIST{INT}) is loop while!(limbs.size > 0 and limbs[limbs.size - 1] = 0); unused ::= limbs.pop; end; end;
end;
"#;

//! Part 1 of the files of lib/.

/// The texts of this part, each behind the words that ask for it.
pub(crate) const FILES_0: [(&str, &str, &str, &str); 2] = [
    ("array2", "array2.sa", "array2.sa", ARRAY2),
    ("fixed", "fixed.sa", "fixed.sa", FIXED),
];

const ARRAY2: &str = r#"-- ARRAY2: an array of rows and columns, both counted from 0.
--
--    table ::= #ARRAY2{INT}(3, 4);
--    loop i ::= table.ind1!; loop j ::= table.ind2!; table[i, j] := i * j; end; end;
--    #OUT + table.size1 + table.size2 + table[2, 3] + "\n";                             -- 346
--    loop #OUT + table.row_elt!(2) + " "; end;                                          -- 0 2 4 6
--    loop #OUT + table.col_elt!(3) + " "; end;                                          -- 0 3 6
class ARRAY2{T} is
   private include AREF{T};

   -- How many rows it has, and how many columns.
   readonly attr size1, size2:INT;

   invariant:BOOL is return size1 >= 0 and size2 >= 0 and asize = size1 * size2; end;

   -- An array of so many rows and columns, with void elements.
   create(size1, size2:INT):SAME pre size1 >= 0 and size2 >= 0 post result.size1 = size1 and result.size2 = size2 is
      array ::= new(size1 * size2);
      array.size1 := size1; array.size2 := size2;
      return array;
   end;

   -- How many elements it has.
   size:INT post result = size1 * size2 is return asize; end;

   -- Whether there are such a row and such a column.
   has_ind(i, j:INT):BOOL post result = (i >= 0 and i < size1 and j >= 0 and j < size2) is
      return i >= 0 and i < size1 and j >= 0 and j < size2;
   end;

   -- The element of the row i and the column j, as `a[i, j]`. Places outside are the fault `index`.
   aget(i, j:INT):T is return [place(i, j)]; end;

   -- Puts an element to the row i and the column j, as `a[i, j] := elt`.
   aset(i, j:INT, elt:T) is [place(i, j)] := elt; end;

   -- The rows' numbers, and the columns'.
   ind1!:INT post result >= 0 and result < size1 is loop yield 0.upto!(size1 - 1); end; end;
   ind2!:INT post result >= 0 and result < size2 is loop yield 0.upto!(size2 - 1); end; end;

   -- The elements, row by row.
   elt!:T is loop yield [0.upto!(asize - 1)]; end; end;

   -- The elements of a row, and those of a column.
   row_elt!(once i:INT):T pre i >= 0 and i < size1 is loop yield [i, ind2!]; end; end;
   col_elt!(once j:INT):T pre j >= 0 and j < size2 is loop yield [ind1!, j]; end; end;

   -- The elements whose row and column have one number.
   diag_elt!:T is i ::= 0; loop while!(i < size1 and i < size2); yield [i, i]; i := i + 1; end; end;

   -- Puts an element to each place, row by row, one in each round.
   set!(elt:T) is
      place ::= 0;
      loop while!(place < asize); [place] := elt; yield; place := place + 1; end;
   end;

   -- An array of its own with the same elements.
   copy:SAME post result.size1 = size1 and result.size2 = size2 is
      array ::= #SAME(size1, size2);
      loop array.set!(elt!); end;
      return array;
   end;

   -- An array of its own whose rows are the columns of this one.
   transpose:SAME post result.size1 = size2 and result.size2 = size1 is
      array ::= #SAME(size2, size1);
      loop i ::= ind1!; loop j ::= ind2!; array[j, i] := [i, j]; end; end;
      return array;
   end;

   -- The place of an element, row by row; -1, which no array has, of one outside.
   private place(i, j:INT):INT is
      if has_ind(i, j) then return i * size2 + j; end;
      return -1;
   end;
end;
"#;

const FIXED: &str =
    r#"-- FIXED: numbers with four digits behind the point, from -214748.3647 to 214748.3647, in place of FLT. Sums are exact. Products,
-- quotients and roots are rounded to the nearest number, and where two are equally near to the one further from 0. What doesn't fit
-- is the fault `overflow`.
--
--    price ::= #FIXED("19.99");
--    #OUT + price * #FIXED(3) + " " + price / #FIXED(7) + "\n";                 -- 59.97 2.8557
--    #OUT + (price * #FIXED("0.19")).round(2) + "\n";                           -- 3.8
--    #OUT + #FIXED(2).sqrt + " " + #FIXED(2, 3) + " " + price.int + "\n";       -- 1.4142 0.6667 19
immutable class FIXED < $STR, $IS_EQ is
   private const one:INT := 10000;
   private const most:INT := 2147483647;

   -- The number in ten-thousandths.
   readonly attr units:INT;

   -- The number of an INT.
   create(i:INT):SAME pre i >= -214748 and i <= 214748 post result.units = i * one is return of(i * one); end;

   -- The quotient of two INTs, rounded; `division by zero` where b is 0.
   create(a, b:INT):SAME pre a > -most - 1 and b > -most - 1 is return of(a) / of(b); end;

   -- The number of a text: digits, perhaps with a sign before them, and perhaps with a point and one to four digits behind them. A text
   -- that is none is raised, in a sentence.
   create(s:STR):SAME is
      first ::= 0; point ::= -1; units ::= 0;
      if s.size > 0 and (s[0] = '-' or s[0] = '+') then first := 1; end;
      loop
         place ::= first.upto!(s.size - 1);
         if s[place] = '.' and place > first and point < 0 then point := place;
         elsif s[place] < '0' or s[place] > '9' then raise "not a number: " + s;
         else units := units * 10 + (s[place].int - '0'.int);
         end;
      end;
      digits ::= 0;
      if point >= 0 then digits := s.size - 1 - point; end;
      if s.size = first or digits > 4 or point = s.size - 1 then raise "not a number: " + s; end;
      units := units * 10.pow(4 - digits);
      if s[0] = '-' then units := -units; end;
      return of(units);
   end;

   -- The number of so many ten-thousandths.
   of(units:INT):SAME pre units > -most - 1 post result.units = units is number:SAME; return number.units(units); end;

   -- The sum, the difference, the number with the other sign, and the amount.
   plus(other:SAME):SAME post result.units = units + other.units is return of(units + other.units); end;
   minus(other:SAME):SAME post result.units = units - other.units is return of(units - other.units); end;
   negate:SAME post result.units = -units is return of(-units); end;
   abs:SAME post result.units >= 0 is return of(units.abs); end;

   -- The product, rounded.
   times(other:SAME):SAME is return signed(product(units.abs, other.units.abs), (units < 0) /= (other.units < 0)); end;

   -- The quotient, rounded; `division by zero` where the other is 0.
   div(other:SAME):SAME is return signed(quotient(units.abs, other.units.abs), (units < 0) /= (other.units < 0)); end;

   -- The square root, rounded: its digits one after the other, each from a pair of digits of the number, as by hand.
   sqrt:SAME pre units >= 0 post result.units >= 0 is
      root ::= 0; rest ::= 0;
      loop
         pair ::= pairs!(units);
         rest := rest * 100 + pair;
         digit ::= 9;
         loop while!((20 * root + digit) * digit > rest); digit := digit - 1; end;
         rest := rest - (20 * root + digit) * digit;
         root := 10 * root + digit;
      end;
      if rest > root then root := root + 1; end;
      return of(root);
   end;

   -- Whether the two are equal, and whether this one is less.
   is_eq(other:SAME):BOOL post result = (units = other.units) is return units = other.units; end;
   is_eq(other:$OB):BOOL is typecase other when FIXED then return units = other.units; else return false; end; end;
   is_lt(other:SAME):BOOL post result = (units < other.units) is return units < other.units; end;

   -- The lesser and the greater of the two.
   min(other:SAME):SAME post result.units <= units is return of(units.min(other.units)); end;
   max(other:SAME):SAME post result.units >= units is return of(units.max(other.units)); end;

   -- The number before the point, and the greatest INT that isn't above it.
   int:INT is return units / one; end;
   floor:INT is if units < 0 and units % one /= 0 then return units / one - 1; end; return units / one; end;

   -- The number rounded to n digits behind the point.
   round(n:INT):SAME pre n >= 0 and n <= 4 is
      step ::= 10.pow(4 - n);
      rounded ::= units / step * step;
      if (units % step).abs >= step - (units % step).abs then
         if units < 0 then rounded := rounded - step; else rounded := rounded + step; end;
      end;
      return of(rounded);
   end;

   -- The digits, with a point where others than 0 stand behind it; and the number rounded to n digits, with all of them.
   str:STR is
      n ::= 4; rest ::= units;
      loop while!(n > 0 and rest % 10 = 0); rest := rest / 10; n := n - 1; end;
      return str(n);
   end;
   str(n:INT):STR pre n >= 0 and n <= 4 is
      rounded ::= round(n).units.abs;
      text ::= (rounded / one).str;
      if n > 0 then text := text + "." + (rounded % one + one).str.substring(1, n); end;
      if units < 0 and rounded > 0 then return "-" + text; end;
      return text;
   end;

   -- The number of an amount in ten-thousandths, and of a sign.
   private signed(amount:INT, is_below:BOOL):SAME pre amount >= 0 is
      if is_below then return of(-amount); end;
      return of(amount);
   end;

   -- The product of two amounts, in parts that are no larger than it.
   private product(a, b:INT):INT pre a >= 0 and b >= 0 is
      return a / one * b + a % one * (b / one) + (a % one * (b % one) + one / 2) / one;
   end;

   -- The quotient of two amounts: the part before the point, and four digits as in a long division.
   private quotient(a, b:INT):INT pre a >= 0 and b >= 0 is
      quotient ::= a / b; rest ::= a % b;
      loop 4.times!; quotient := quotient * 10 + next_digit(inout rest, b); end;
      if rest >= b - rest then return quotient + 1; end;
      return quotient;
   end;

   -- Ten times what is left, divided by b: the digit, and what is left then. It adds ten times, since the product might not fit.
   private next_digit(inout rest:INT, b:INT):INT pre rest >= 0 and rest < b post result >= 0 and result <= 9 is
      sum ::= 0; digit ::= 0;
      loop
         10.times!;
         if sum >= b - rest then sum := sum - (b - rest); digit := digit + 1; else sum := sum + rest; end;
      end;
      rest := sum;
      return digit;
   end;

   -- The pairs of digits of ten thousand times a number, from the highest on.
   private pairs!(once i:INT):INT is
      loop yield i / 100.pow(4.downto!(0)) % 100; end;
      loop 2.times!; yield 0; end;
   end;
end;
"#;
